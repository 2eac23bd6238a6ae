// Trouble codes: the letters k and m to o.
ghost use Rattle.io.specs.Counts.{IsPrefixLen};

use dtc::status::DtcRecord;
use oracle_text::answer::{put_refused, put_written};
use oracle_text::input::two_at;
use oracle_text::room::full_room;
use oracle_text::text::{put_hex, put_numbers};
use wire::refusal::Refusal;

// The code of three bytes: these, and its number.
pub(crate) fn put_number(input: &[u8], out: &mut [u8], at: usize) -> usize
    ensures { IsPrefixLen result out.new }
{
    let &[high, middle, low] = input else {
        return 0;
    };
    let code = DtcRecord::new(high, middle, low);
    let numbers = [
        u64::from(code.high_byte()),
        u64::from(code.middle_byte()),
        u64::from(code.low_byte()),
        u64::from(code.to_u32()),
    ];
    put_numbers(&numbers, out, at)
}

// Whether two codes are equal.
pub(crate) fn put_equal(input: &[u8], out: &mut [u8], at: usize) -> usize
    ensures { IsPrefixLen result out.new }
{
    let &[high, middle, low, other_high, other_middle, other_low] = input else {
        return 0;
    };
    let code = DtcRecord::new(high, middle, low);
    let other = DtcRecord::new(other_high, other_middle, other_low);
    put_numbers(&[u64::from(code.equals(other))], out, at)
}

// The code and where the next field begins, or the refusal.
fn put_read(read: Result<(DtcRecord, usize), Refusal>, out: &mut [u8], at: usize) -> usize
    ensures { IsPrefixLen result out.new }
{
    match read {
        Ok((code, next)) => {
            let high = u64::from(code.high_byte());
            let middle = u64::from(code.middle_byte());
            let low = u64::from(code.low_byte());
            put_numbers(&[0, 0, 0, high, middle, low, next as u64], out, at)
        }
        Err(e) => put_refused(e, 4, out, at),
    }
}

// The code at the place of the rest that the first two bytes say.
pub(crate) fn put_code(input: &[u8], out: &mut [u8], at: usize) -> usize
    ensures { IsPrefixLen result out.new }
{
    if input.len() < 2 {
        return 0;
    }
    let place = usize::from(two_at(input, 0));
    put_read(DtcRecord::decode(&input[2..], place), out, at)
}

fn put_in_room(code: DtcRecord, room: &mut [u8], out: &mut [u8], at: usize) -> usize
    ensures { IsPrefixLen result out.new }
{
    let end = put_written(code.encode(room), out, at);
    put_hex(room, out, end)
}

// The code of the last three bytes, in a room of the length that the first two say.
pub(crate) fn put_encoded(input: &[u8], out: &mut [u8], at: usize) -> usize
    ensures { IsPrefixLen result out.new }
{
    let &[_, _, high, middle, low] = input else {
        return 0;
    };
    let mut room = full_room();
    let n = io::count(two_at(input, 0) as isize, &room);
    put_in_room(DtcRecord::new(high, middle, low), &mut room[..n], out, at)
}
