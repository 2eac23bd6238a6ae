// Payloads read: the letter v.
ghost use Rattle.io.specs.Counts.{IsPrefixLen};

use oracle_text::answer::put_refused;
use oracle_text::text::put_numbers;
use request_file_transfer::name::name_at;
use wire::group::{TwoSizes, one_size_at, two_sizes_at};
use wire::number::eight_at;
use wire::place::{Place, counted_at};
use wire::prefix::Prefix;
use wire::refusal::Refusal;
use wire::size::Size;

fn of_sizes((two, next): (TwoSizes, usize)) -> [u64; 8] {
    let u = two.uncompressed;
    let c = two.compressed;
    [u.high, u.low, c.high, c.low, 0, 0, 0, next as u64]
}

fn of_dir_size((size, next): (Size, usize)) -> [u64; 8] {
    [size.high, size.low, 0, 0, 0, 0, 0, next as u64]
}

fn of_position((position, next): (u64, usize)) -> [u64; 8] {
    [0, 0, 0, 0, position, 0, 0, next as u64]
}

// Of a block length or of a name.
fn of_place((place, next): (Place, usize)) -> [u64; 8] {
    [
        0,
        0,
        0,
        0,
        0,
        place.start as u64,
        place.len as u64,
        next as u64,
    ]
}

// What the payload of this number says: both sizes in halves, the position, the place of the block length or name, and where the next field begins. What the payload
// lacks is 0. Of another number there is none.
// The number is the recorded input's: the head of the crate says which payload it stands for.
fn read(payload: u8, s: &[u8], place: usize) -> Option<Result<[u64; 8], Refusal>> {
    match payload {
        0 => Some(two_sizes_at(Prefix::One, s, place).map(of_sizes)),
        1 => Some(two_sizes_at(Prefix::Two, s, place).map(of_sizes)),
        2 => Some(one_size_at(Prefix::Two, s, place).map(of_dir_size)),
        3 => Some(eight_at(s, place).map(of_position)),
        4 => Some(counted_at(Prefix::One, s, place).map(of_place)),
        5 => Some(name_at(s, place).map(of_place)),
        _ => None,
    }
}

// The payload that the first byte names, at the place of the rest that the second says: the refusal, or what it says.
pub(crate) fn put_payload(input: &[u8], out: &mut [u8], at: usize) -> usize
    ensures { IsPrefixLen result out.new }
{
    if input.len() < 2 {
        return 0;
    }
    let s = &input[2..];
    match read(input[0], s, usize::from(input[1])) {
        Some(Ok(fields)) => {
            let end = put_numbers(&[0, 0, 0], out, at);
            put_numbers(&fields, out, end)
        }
        Some(Err(e)) => put_refused(e, 8, out, at),
        None => 0,
    }
}
