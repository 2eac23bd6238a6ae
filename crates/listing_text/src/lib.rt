// What the programs `export_listing` and `import_listing` write, down to the byte, and the room that they read an input into.
#![tactic(auto)]

pub mod export;
pub mod import;

ghost use Rattle.std.specs.Prelude.{◌≡◌, length, replicate};

// Room for an input: one byte more than it may have, so that a longer one is seen to be too long. All zeros.
pub fn room() -> [u8; 65537]
    ensures len { 65537 ≡ length result }
    ensures zeros { result ≡ replicate 65537 0 }
{
    [0; 65537]
}
