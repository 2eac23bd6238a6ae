// What the program `why_refused` prints of a message, down to its text; what its argument names; and the room that it reads a message into.
#![tactic(auto)]

pub mod sort;
pub mod text;

ghost use Rattle.std.specs.Prelude.{◌≡◌, length, replicate};

// Room for an input: one byte more than it may have, so that a longer one is seen to be too long. All zeros.
pub fn room() -> [u8; 131073]
    ensures value { 131073 ≡ length result }
    ensures value_2 { result ≡ replicate 131073 0 }
{
    [0; 131073]
}
