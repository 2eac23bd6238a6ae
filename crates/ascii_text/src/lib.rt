// Text in lent room: decimal numbers, words with a number, and the line of a refusal, in ASCII. Each function puts its text at the start of `out` and
// answers how many bytes the text has. Where they do not fit nothing changes: who lends less room than the text can have compares the answer with it.
// Every part is put by its own call: `write!` promises which bytes it writes only where it answers `Ok`, and not that it does, so no contract below would follow.
#![tactic(auto)]

ghost use Rattle.std.specs.Prelude.{◌+◌, ◌≤◌, length};
ghost use Rattle.paper.specs.ReadingProgram.{decimal, text_of, bad};
ghost use Rattle.wire.specs.Refusals.{row};
ghost use Rattle.ascii_text.specs.Text.{Laid, Put, field};

use itoa::Buffer;
use wire::refusal::Refusal;
use wire::write::{put_byte, put_bytes};

// The digits of a number.
pub fn put_decimal(n: u64, out: &mut [u8]) -> usize
    ensures laid { Laid (decimal n) result out.old out.new }
    ensures upper_bound { result ≤ 20 }
{
    let mut buffer = Buffer::new();
    let digits = buffer.format(n).as_bytes();
    let _ = put_bytes(digits, out);
    digits.len()
}

// A word of at most 64 letters and the number after it; nothing where the word is longer.
pub fn put_field(word: &[u8], n: u64, out: &mut [u8]) -> usize
    ensures laid { Laid (field word.now n) result out.old out.new }
    ensures upper_bound { result ≤ length word.now + 20 }
{
    if 64 < word.len() {
        return 0;
    }
    let mut buffer = Buffer::new();
    let digits = buffer.format(n).as_bytes();
    let all = word.len() + digits.len();
    if out.len() < all {
        return all;
    }
    let _ = put_bytes(word, out);
    let _ = put_bytes(digits, &mut out[word.len()..]);
    all
}

// The line of a refusal in room that is long enough for any.
fn lay_refused(refusal: Refusal, line: &mut [u8]) -> usize
    requires { 71 ≤ length line.old }
    ensures { Put (text_of (bad (row refusal))) result 71 line.old line.new }
{
    let a = put_field(b"refused ", refusal.number() as u64, line);
    let b = a + put_field(b" ", refusal.first() as u64, &mut line[a..]);
    let c = b + put_field(b" ", refusal.second() as u64, &mut line[b..]);
    let _ = put_byte(b'\n', &mut line[c..]);
    c + 1
}

// `refused N A B` and a line feed.
pub fn put_refused(refusal: Refusal, out: &mut [u8]) -> usize
    ensures laid { Laid (text_of (bad (row refusal))) result out.old out.new }
    ensures upper_bound { result ≤ 71 }
{
    let mut line = [0u8; 71];
    let n = lay_refused(refusal, &mut line);
    let _ = put_bytes(&line[..n], out);
    n
}
