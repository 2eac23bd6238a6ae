// UTF-8 in blocks of bytes: whether a byte can stand where it stands is decided by the three before it, so each is judged for itself,
// with no branch and no early exit, and the compiler can judge many at once. Text of which each byte fits is UTF-8, but for a character that
// it breaks off at its end.
//
// Of `61 E2 82 AC ED A0`, a letter, the euro sign and the beginning of a surrogate, `fits_after` answers, as if zeros stood before the text:
//     00 00 00 61  true   no character goes on, and 61 begins one
//     00 00 61 E2  true   no character goes on, and E2 begins one
//     00 61 E2 82  true   that of E2, one before, goes on, and 82 can stand inside it
//     61 E2 82 AC  true   that of E2, two before, goes on, and AC can stand inside it
//     E2 82 AC ED  true   E2, three before, would have to be F0 or more to go on; ED begins a character
//     82 AC ED A0  false  that of ED goes on, but only up to 9F can stand after ED
// A block that ends in `61 E2 82` fits too: `unfinished` answers 2 for it, and its whole characters end two bytes before it does.
ghost use Rattle.std.specs.Prelude.{◌≡◌, ◌↔◌, ◌≤◌, ◌<◌, length, IsTrue, IfSome};
ghost use Rattle.utf8.specs.Valid.{Valid};
ghost use Rattle.utf8.specs.Ascii.{Ascii, AsciiStart, AsciiEnd};
ghost use Rattle.utf8.specs.Fit.{Fits, AllFit, Fitting, FitStart, unfinished_of};

// How many bytes a block has: enough that the compiler can judge many at once, few enough that a name has some.
pub(crate) const BLOCK: usize = 64;

// Whether every byte of s is ASCII, below 0x80; of an empty s too. With no early exit: `is_ascii`, which goes by words of eight bytes, takes a tenth more over
// short names of mixed text.
fn all_ascii(s: &[u8]) -> bool
    ensures { IsTrue result ↔ Ascii s.now }
{
    let mut bits: u8 = 0;
    for byte in s {
        bits |= *byte;
    }
    bits < 0x80
}

// Whether the last `size` bytes of s are there and are all ASCII.
fn ends_in_ascii(s: &[u8], size: usize) -> bool
    ensures { IsTrue result → AsciiEnd s.now size }
{
    if s.len() < size {
        return false;
    }
    all_ascii(&s[s.len() - size..])
}

// How many bytes of ASCII s begins with, by blocks of `size` bytes; where less than a block is left, by one more that ends where s does.
// 0 where the first block is not ASCII, or s is shorter than a block.
pub(crate) fn ascii_blocks(s: &[u8], size: usize) -> usize
    requires { 0 < size }
    ensures { AsciiStart s.now result }
{
    let mut at = 0;
    for block in s.chunks_exact(size) {
        if !all_ascii(block) {
            return at;
        }
        at += size;
    }
    if ends_in_ascii(s, size) {
        return s.len();
    }
    at
}

// Whether d can stand right after a, b and c: inside a character where one of them leads a character that goes on up to d, else at the
// start of one.
fn fits_after(a: u8, b: u8, c: u8, d: u8) -> bool
    ensures { IsTrue result ↔ Fits a b c d }
{
    let goes_on = (0xF0 <= a) | (0xE0 <= b) | (0xC0 <= c);
    let inside = (0x80 <= d) & (d <= 0xBF);
    let never = (d == 0xC0) | (d == 0xC1) | (0xF4 < d);
    let overlong = (c == 0xE0) & (d < 0xA0) | (c == 0xF0) & (d < 0x90);
    let surrogate = (c == 0xED) & (0x9F < d);
    let too_large = (c == 0xF4) & (0x8F < d);
    (goes_on == inside) & !(never | overlong | surrogate | too_large)
}

// Whether each byte of s from the fourth on fits after the three before it; also where there is no fourth.
fn all_fit(s: &[u8]) -> bool
    ensures { IsTrue result ↔ AllFit s.now }
{
    let mut fit = true;
    for i in 3..s.len() {
        fit &= fits_after(s[i - 3], s[i - 2], s[i - 1], s[i]);
    }
    fit
}

// The same as `all_fit`, sooner where all of s is ASCII. `first`, a byte of s, spares most text that is not ASCII the test for it.
fn block_fits(s: &[u8], first: u8) -> bool
    ensures { IsTrue result ↔ AllFit s.now }
{
    if first < 0x80 && all_ascii(s) {
        return true;
    }
    all_fit(s)
}

// Up to where the bytes of s fit, by blocks: up to `from` they do. It ends before the first block of which a byte does not fit,
// or where less than a block is left. Each block is lent with the three bytes before it, so blocks overlap, and `chunks_exact` does not give them.
fn fitting_blocks(s: &[u8], from: usize) -> usize
    requires { Fitting s.now from }
    ensures { Fitting s.now result }
{
    let mut at = from;
    while let Some(block) = s[at - 3..].get(..3 + BLOCK) {
        if !block_fits(block, block[0]) {
            return at;
        }
        at += BLOCK;
    }
    at
}

// Whether a, b and c fit at the start of a text, as if zeros stood before it.
fn start_fits(a: u8, b: u8, c: u8) -> bool
    ensures { IsTrue result ↔ FitStart a b c }
{
    fits_after(0, 0, 0, a) & fits_after(0, 0, a, b) & fits_after(0, a, b, c)
}

// Up to where the bytes of s fit, before a block is tested: the `ascii` bytes with which s begins where they are a block or more,
// else its first three bytes, where those fit.
fn fitting_start(s: &[u8], ascii: usize) -> Option<usize>
    requires ascii { AsciiStart s.now ascii }
    requires three { 3 ≤ length s.now }
    ensures { IfSome result (Fitting s.now) }
{
    if BLOCK <= ascii {
        return Some(ascii);
    }
    if start_fits(s[0], s[1], s[2]) {
        return Some(3);
    }
    None
}

// How many of a, b and c, the last bytes of a text, belong to a character that goes on after them: 0 to 3.
fn unfinished(a: u8, b: u8, c: u8) -> usize
    ensures value { result ≡ unfinished_of a b c }
    ensures three { result ≤ 3 }
{
    if 0xC0 <= c {
        return 1;
    }
    if 0xE0 <= b {
        return 2;
    }
    if 0xF0 <= a {
        return 3;
    }
    0
}

// How many bytes the whole characters take in the blocks with which s begins: those of ASCII, then those of which each byte fits.
// 0 where s is shorter than a block.
pub(crate) fn by_blocks(s: &[u8]) -> usize
    ensures { Valid s.now result }
{
    let ascii = ascii_blocks(s, BLOCK);
    if s.len() - ascii < BLOCK {
        return ascii;
    }
    let Some(start) = fitting_start(s, ascii) else {
        return 0;
    };
    let end = fitting_blocks(s, start);
    end - unfinished(s[end - 3], s[end - 2], s[end - 1])
}
