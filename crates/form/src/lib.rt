// A text put together from left to right. The first `at` bytes of `out` are the text so far; each function adds to them and answers how many they
// then are. A letter for which `out` has no room is left out.
// `out` and `at` are two parameters: a struct that kept `out` as a `&mut` would need a clause in each of its functions that it still holds that reference.
#![tactic(auto)]

ghost use Rattle.std.specs.Prelude.{◌≡◌, ◌+◌, ◌*◌, ◌<◌, [], ◌∷◌, length};
ghost use Rattle.paper.specs.ReadingProgram.{decimal};
ghost use Rattle.paper.specs.Form.{filled_in};
ghost use Rattle.paper.specs.MessageProgram.{hex_digit, hex_byte};
ghost use Rattle.form.specs.Text.{Grew};

use itoa::Buffer;

const BLANK: u8 = b'_';

fn put_letter(letter: u8, out: &mut [u8], at: usize) -> usize
    ensures { Grew (letter ∷ []) 1 at out.old result out.new }
{
    if out.len() <= at {
        return at;
    }
    out[at] = letter;
    at + 1
}

// The bytes as they are.
pub fn put(bytes: &[u8], out: &mut [u8], at: usize) -> usize
    ensures { Grew bytes.now (length bytes.now) at out.old result out.new }
{
    let mut end = at;
    for byte in bytes {
        end = put_letter(*byte, out, end);
    }
    end
}

// Capitals: `io::hex` writes small letters.
fn hex_digit(n: u8) -> u8
    requires { n < 16 }
    ensures { result ≡ hex_digit n }
{
    if n < 10 { b'0' + n } else { b'A' + (n - 10) }
}

// A byte in two digits of sixteen.
pub fn put_hex(b: u8, out: &mut [u8], at: usize) -> usize
    ensures { Grew (hex_byte b) 2 at out.old result out.new }
{
    let digits = [hex_digit(b / 16), hex_digit(b % 16)];
    put(&digits, out, at)
}

fn put_number(n: u64, out: &mut [u8], at: usize) -> usize
    ensures { Grew (decimal n) 20 at out.old result out.new }
{
    let mut buffer = Buffer::new();
    put(buffer.format(n).as_bytes(), out, at)
}

// A form with its blanks filled in: each blank, a `_`, with the next of the numbers, in decimal; with nothing where none is left.
// The paper says its texts by such forms. `write!` has no contract here: it promises which bytes it writes only where it answers `Ok`, and not that it does.
pub fn put_form(form: &[u8], numbers: &[u64], out: &mut [u8], at: usize) -> usize
    ensures { Grew (filled_in form.now numbers.now) (length form.now + 20 * length numbers.now) at out.old result out.new }
{
    let mut end = at;
    let mut left = numbers;
    for letter in form {
        if *letter != BLANK {
            end = put_letter(*letter, out, end);
        } else if let Some((n, others)) = left.split_first() {
            end = put_number(*n, out, end);
            left = others;
        }
    }
    end
}
