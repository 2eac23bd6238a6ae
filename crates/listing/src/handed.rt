// Records that are handed over to be written.
ghost use Rattle.std.specs.Prelude.{◌≡◌, ◌*◌, ◌≤◌, length};

// So many records, of seven bytes each.
#[derive(Clone, Copy)]
pub(crate) struct Handed<'a> {
    pub(crate) bytes: &'a [u8],
    pub(crate) count: usize,
    ghost few: { count ≤ 4096 },
    ghost whole: { length bytes.now ≡ 7 * count },
}
