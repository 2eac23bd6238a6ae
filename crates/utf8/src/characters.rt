// UTF-8 character by character: the first byte says how many follow it and which the second may be; those after it are from 0x80 to 0xBF.
// What the first byte says is looked up in a table (by_table.rt), or found by comparing it with the ranges of RFC 3629 (by_ranges.rt).
//
// Of `61 62 E2 82 AC ED A0 80`, two letters, the euro sign and a surrogate, which is no character, `by_characters` answers 5, either way:
//     at 0  61 62 ..     the step is 2: a run of ASCII
//     at 2  E2 82 AC ..  the step is 3: E2 leads three bytes, and 82 and AC are from 0x80 to 0xBF
//     at 5  ED A0 80     the step is 0: after ED the second byte is at most 0x9F
ghost use Rattle.std.specs.Prelude.{◌≡◌, ◌-◌, ◌≤◌, ◌∷◌, replicate};
ghost use Rattle.std.specs.Fn.{FnReturnsAt};
ghost use Rattle.std.specs.List.{list_all};
ghost use Rattle.paper.specs.Utf8.{in_range, tail, Longest};
ghost use Rattle.utf8.specs.Valid.{MakesSteps};
ghost use Rattle.utf8.specs.Ascii.{AsciiRun};
ghost use Rattle.utf8.specs.Character.{sized};

use crate::blocks::ascii_blocks;

// The range of the bytes after a character's second.
pub(crate) const TAIL: (u8, u8) = (0x80, 0xBF);

// Both tests are made, with no branch between them.
pub(crate) fn in_range(range: (u8, u8), b: u8) -> bool
    ensures { result ≡ in_range range b }
{
    (range.0 <= b) & (b <= range.1)
}

// Whether each byte of s is one of those after a character's second; of an empty s too.
fn all_tail(s: &[u8]) -> bool
    ensures { result ≡ list_all (in_range tail) s.now }
{
    s.iter().all(|b| in_range(TAIL, *b))
}

// N, the length of a character whose second byte is in this range and whose bytes after it are in `TAIL`: 0 where one is not, or where s ends
// before. The first byte has decided what is asked, and is not looked at.
pub(crate) fn sized<const N: usize>(second: (u8, u8), s: &[u8]) -> usize
    requires { 2 ≤ N }
    ensures { result ≡ sized (second ∷ replicate (N - 2) tail) s.now }
{
    let Some([b, rest @ ..]) = s.get(1..N) else {
        return 0;
    };
    if in_range(second, *b) && all_tail(rest) {
        N
    } else {
        0
    }
}

// How many bytes of ASCII s begins with, byte by byte: where words of several alphabets are mixed, such runs are short, and a block would mostly be tested in vain.
pub(crate) fn ascii_run(s: &[u8]) -> usize
    ensures { AsciiRun s.now result }
{
    s.iter().position(|b| 0x80 <= *b).unwrap_or(s.len())
}

// The length of the longest beginning of s that is UTF-8: the ASCII that it begins with is passed in small blocks, and then it is found step by step.
// A step is 0 where no character begins what is left, as the paper's `char_length` is, by which `Step` says so.
pub(crate) fn by_characters<F: Fn(&[u8]) -> usize>(s: &[u8], step: F) -> usize
    requires callable { F.IsAlwaysCallable step }
    requires steps { MakesSteps (FnReturnsAt F.Fn step) }
    ensures { Longest s.now result }
{
    let mut at = ascii_blocks(s, 16);
    // No `for`: a step is as long as the call answers.
    loop {
        let n = step(&s[at..]);
        if n == 0 {
            return at;
        }
        at += n;
    }
}
