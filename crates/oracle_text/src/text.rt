// The text of a line, put together from left to right. The first `at` bytes of `out` are the text so far; each function adds to them and answers
// how many they then are. Where there is no room for what is added, the text is given up: it is empty, and nothing is added to an empty text.
// The length stands beside the room and not in a `String`, since no heap is used; and in no struct with it, since the room is lent anew for each part.
ghost use Rattle.oracle_text.specs.Text.{Stands, text, begun, add, add_number, add_numbers, add_byte, add_hex};

use itoa::Buffer;
use wire::write::put_bytes;

// The first letter of a text.
pub fn begin(letter: u8, out: &mut [u8]) -> usize
    ensures { Stands (begun letter out.old) result out.new }
{
    if out.is_empty() {
        return 0;
    }
    out[0] = letter;
    1
}

// The bytes as they are.
pub fn put(bytes: &[u8], out: &mut [u8], at: usize) -> usize
    ensures { Stands (add bytes.now (text at out.old)) result out.new }
{
    if at == 0 || out.len() < at || out.len() - at < bytes.len() {
        return 0;
    }
    let _ = put_bytes(bytes, &mut out[at..]);
    at + bytes.len()
}

// A number in decimal, after a space.
// By `put`, and not `write!`, for the reason that stands in crate `ascii_text`.
pub(crate) fn put_number(n: u64, out: &mut [u8], at: usize) -> usize
    ensures { Stands (add_number n (text at out.old)) result out.new }
{
    let mut buffer = Buffer::new();
    let digits = buffer.format(n).as_bytes();
    let after = put(b" ", out, at);
    put(digits, out, after)
}

// Each number likewise.
pub fn put_numbers(numbers: &[u64], out: &mut [u8], at: usize) -> usize
    ensures { Stands (add_numbers numbers.now (text at out.old)) result out.new }
{
    let mut end = put(b"", out, at);
    for n in numbers {
        end = put_number(*n, out, end);
    }
    end
}

fn put_byte(b: u8, out: &mut [u8], at: usize) -> usize
    ensures { Stands (add_byte b (text at out.old)) result out.new }
{
    let mut digits = [0u8; 16];
    let k = io::hex(u64::from(b), 2, &mut digits);
    put(&digits[..k], out, at)
}

// A space and the bytes in hexadecimal, two digits each, or a dash where there are none.
pub fn put_hex(bytes: &[u8], out: &mut [u8], at: usize) -> usize
    ensures { Stands (add_hex bytes.now (text at out.old)) result out.new }
{
    if bytes.is_empty() {
        return put(b" -", out, at);
    }
    let mut end = put(b" ", out, at);
    for b in bytes {
        end = put_byte(*b, out, end);
    }
    end
}
