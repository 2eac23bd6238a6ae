// The lines of a page. A line is a letter, an input in hexadecimal and the answer, with a space between.
// The length of a text stands beside the room and in no struct with it, as in crate `oracle_text`.
ghost use Rattle.std.specs.Prelude.{◌≡◌, ℕ, ◌<◌, ◌≤◌, ◌≢◌, length, slice_index};
ghost use Rattle.io.specs.Counts.{IsPrefixLen};

use crate::count::Tally;
use crate::hex::bytes_of;
use oracle_text::text::{begin, put_hex};
use std::io::Result;

// Each letter's call is made by one of four crates: capital letters stand for calls through the doors, small ones for the others.
fn put_answer(letter: u8, input: &[u8], out: &mut [u8], at: usize) -> usize
    ensures { IsPrefixLen result out.new }
{
    match letter {
        b'A'..=b'Z' => oracle_doors::put_answer(letter, input, out, at),
        b'i'..=b'o' => oracle_codes::put_answer(letter, input, out, at),
        b's'..=b'y' => oracle_payloads::put_answer(letter, input, out, at),
        _ => oracle_bytes::put_answer(letter, input, out, at),
    }
}

// The first place where the byte stands, or the end of the text where there is none.
fn find(text: &[u8], byte: u8) -> usize
    ensures within { result ≤ length text.now }
    ensures before { (k : ℕ) → k < result → slice_index text.now k ≢ byte }
    ensures found { result < length text.now → slice_index text.now result ≡ byte }
{
    text.iter().position(|b| *b == byte).unwrap_or(text.len())
}

// The line written anew: its own letter and input, and then our answer. What cannot be taken apart comes out otherwise than it was.
fn anew(line: &[u8], out: &mut [u8]) -> usize
    ensures { IsPrefixLen result out.new }
{
    let [letter, _, fields @ ..] = line else {
        return 0;
    };
    let end = find(fields, b' ');
    let mut input = [0u8; 4096];
    let n = bytes_of(&fields[..end], &mut input);
    let begun = begin(*letter, out);
    let front = put_hex(&input[..n], out, begun);
    put_answer(*letter, &input[..n], out, front)
}

// Empty lines fill a page up, and the head's begin with a number sign.
fn judge(rt: &impl Print, t: Tally, line: &[u8]) -> Result<Tally> {
    match line {
        [] | [b'#', ..] => Ok(t.passed()),
        _ => {
            let mut text = [0u8; 4096];
            let n = anew(line, &mut text);
            let after = t.judged(line, &text[..n]);
            after.print_if_differs(rt, t, line)?;
            Ok(after)
        }
    }
}

pub(crate) fn lines(rt: &impl Print, t: Tally, page: &[u8]) -> Result<Tally> {
    let mut t = t;
    for line in page.split_inclusive(|b| *b == b'\n') {
        t = judge(rt, t, line.strip_suffix(b"\n").unwrap_or(line))?;
    }
    Ok(t)
}
