// Payloads written, and a block length or a name held: the letters w to y.
ghost use Rattle.std.specs.Prelude.{◌≡◌, ◌≤◌, length};
ghost use Rattle.io.specs.Counts.{IsPrefixLen};

use oracle_text::answer::put_written;
use oracle_text::input::{number_at, size_at, two_at};
use oracle_text::room::full_room;
use oracle_text::text::put_hex;
use request_file_transfer::name::good_name;
use request_file_transfer_response::sent_data::good_block_length;
use wire::prefix::Prefix;
use wire::refusal::Refusal;
use wire::size::Size;
use wire::write::{put_counted, put_eight, put_one_size, put_two_sizes};

// The payload that is made of sizes; of another number than these three there is none, and WrongFormat stands in.
// The number is the recorded input's: the head of the crate says which payload it stands for.
fn encode_sizes(
    payload: u8,
    uncompressed: Size,
    compressed: Size,
    room: &mut [u8],
) -> Result<usize, Refusal> {
    match payload {
        0 => put_two_sizes(Prefix::One, uncompressed, compressed, room),
        1 => put_two_sizes(Prefix::Two, uncompressed, compressed, room),
        2 => put_one_size(Prefix::Two, uncompressed, room),
        _ => Err(Refusal::WrongFormat { good: 0 }),
    }
}

fn encode(input: &[u8], room: &mut [u8]) -> Result<usize, Refusal>
    requires { 43 ≤ length input.now }
{
    match input[2] {
        3 => put_eight(number_at(input, 35, 8), room),
        4 => put_counted(Prefix::One, &input[43..], room),
        5 => put_counted(Prefix::Two, &input[43..], room),
        payload => encode_sizes(payload, size_at(input, 3), size_at(input, 19), room),
    }
}

fn put_in_room(input: &[u8], room: &mut [u8], out: &mut [u8], at: usize) -> usize
    requires { 43 ≤ length input.now }
    ensures { IsPrefixLen result out.new }
{
    let end = put_written(encode(input, room), out, at);
    put_hex(room, out, end)
}

// The payload that the third byte names, in a room of the length that the first two say.
pub(crate) fn put_encoded(input: &[u8], out: &mut [u8], at: usize) -> usize
    ensures { IsPrefixLen result out.new }
{
    if input.len() < 43 {
        return 0;
    }
    let mut room = full_room();
    let n = usize::from(two_at(input, 0)).min(room.len());
    put_in_room(input, &mut room[..n], out, at)
}

// More letters than a name may have.
fn letters() -> [u8; 65536]
    ensures { 65536 ≡ length result }
{
    [b'a'; 65536]
}

fn held(letter: u8, part: &[u8]) -> Result<usize, Refusal> {
    if letter == b'x' {
        good_block_length(part)
    } else {
        good_name(part)
    }
}

// How many bytes of a block length of so many are held, or of a name, or the refusal.
pub(crate) fn put_held(letter: u8, input: &[u8], out: &mut [u8], at: usize) -> usize
    ensures { IsPrefixLen result out.new }
{
    let &[a, b, c, d] = input else {
        return 0;
    };
    let part = letters();
    let n = (u32::from_be_bytes([a, b, c, d]) as usize % 131072).min(part.len());
    put_written(held(letter, &part[..n]), out, at)
}
