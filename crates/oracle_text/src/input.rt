// Numbers in an input, high byte first; 0 where the input ends before them.
// Each is named by its place in the whole input, of which the head of the recorded list says what parts it has and how long they are.
ghost use Rattle.std.specs.Prelude.{◌≡◌, ◌%◌, ◌^◌};
ghost use Rattle.oracle_text.specs.Input.{number_at, SizeIs};

use wire::group::read_be_uint;
use wire::size::Size;

fn uint_at(input: &[u8], at: usize, width: usize) -> Size
    ensures { SizeIs (number_at width at input.now) result }
{
    read_be_uint(input, at, width).map_or(Size { high: 0, low: 0 }, |(size, _)| size)
}

// In 16 bytes.
pub fn size_at(input: &[u8], at: usize) -> Size
    ensures { SizeIs (number_at 16 at input.now) result }
{
    uint_at(input, at, 16)
}

// In `width` bytes, of which the last eight count; 0 where the width is 0 or above 16.
pub fn number_at(input: &[u8], at: usize, width: usize) -> u64
    ensures { result ≡ number_at width at input.now % 2 ^ 64 }
{
    uint_at(input, at, width).low
}

// In two bytes.
pub fn two_at(input: &[u8], at: usize) -> u16
    ensures { result ≡ number_at 2 at input.now % 65536 }
{
    (number_at(input, at, 2) % 65536) as u16
}
