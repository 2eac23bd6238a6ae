// What a reader finds of a message.
ghost use Rattle.std.specs.Prelude.{◌≡◌, ◌-◌, length};

// How many bytes are available from `at` on, 0 past the end.
pub fn available_at(s: &[u8], at: usize) -> usize
    ensures { result ≡ length s.now - at }
{
    s.len().saturating_sub(at)
}
