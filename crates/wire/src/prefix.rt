// A count or a width stands in one byte or in two.
ghost use Rattle.std.specs.Prelude.{◌≡◌, ◌≤◌};
ghost use Rattle.wire.specs.Prefix.{prefix_len, prefix_most};

#[derive(Clone, Copy, Debug, PartialEq, Eq)]
pub enum Prefix {
    One,
    Two,
}

impl Prefix {
    // How many bytes it has.
    pub(crate) fn len(self) -> usize
        ensures { (result ≡ prefix_len self) × (result ≤ 2) }
    {
        match self {
            Prefix::One => 1,
            Prefix::Two => 2,
        }
    }

    // The largest number that it holds.
    pub(crate) fn most(self) -> usize
        ensures { (result ≡ prefix_most self) × (result ≤ 65535) }
    {
        match self {
            Prefix::One => 255,
            Prefix::Two => 65535,
        }
    }
}
