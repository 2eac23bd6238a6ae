// The room of a call that writes.
ghost use Rattle.std.specs.Prelude.{◌≡◌, length, replicate};

// The longest room that a recorded call has, full of the bytes that stand in a room before the call.
pub fn full_room() -> [u8; 4096]
    ensures value { 4096 ≡ length result }
    ensures value_2 { result ≡ replicate 4096 170 }
{
    [0xaa; 4096]
}
