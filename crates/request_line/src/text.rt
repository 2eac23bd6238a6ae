// The text of the line: words and decimal numbers in ASCII, ended by a line feed. Each function writes from the start of `out` and answers
// how many bytes it wrote. `put_text` lends more room than any line needs, so that no writer of a field refuses: what they answer is not looked at.
// No `write!`, for the reason that stands in crate `ascii_text`.
ghost use Rattle.std.specs.Prelude.{◌≡◌, ◌≤◌, length};
ghost use Rattle.io.specs.Counts.{IsPrefixLen};
ghost use Rattle.paper.specs.Answer.{over};
ghost use Rattle.paper.specs.ReadingProgram.{shown_text, text_of, line_of};
ghost use Rattle.ascii_text.specs.Text.{Put};
ghost use Rattle.request_line.specs.Line.{shown_of, good_said, line_said};
ghost use Rattle.request_line.specs.Text.{front};

use crate::line::{Accepted, Line, line_of};
use ascii_text::{put_decimal, put_field, put_refused};
use wire::write::{put_byte, put_bytes};

fn put_shown(format: Option<u8>, out: &mut [u8]) -> usize
    ensures { Put (shown_text (shown_of format)) result 20 out.old out.new }
{
    match format {
        None => {
            let _ = put_byte(b'-', out);
            1
        }
        Some(b) => put_decimal(u64::from(b), out),
    }
}

// `accepted kind K name N format F`.
fn put_front(said: Accepted, out: &mut [u8]) -> usize
    requires { 160 ≤ length out.old }
    ensures { Put (front said.kind said.name (shown_of said.format)) result 88 out.old out.new }
{
    let a = put_field(b"accepted kind ", u64::from(said.kind), out);
    let b = a + put_field(b" name ", said.name as u64, &mut out[a..]);
    let _ = put_bytes(b" format ", &mut out[b..]);
    let c = b + 8;
    c + put_shown(said.format, &mut out[c..])
}

// That, then ` normal M left L` and the line feed.
fn put_accepted(said: Accepted, out: &mut [u8]) -> usize
    requires { 160 ≤ length out.old }
    ensures { Put (text_of (good_said said)) result 160 out.old out.new }
{
    let d = put_front(said, out);
    let e = d + put_field(b" normal ", said.normal as u64, &mut out[d..]);
    let f = e + put_field(b" left ", said.left as u64, &mut out[e..]);
    let _ = put_byte(b'\n', &mut out[f..]);
    f + 1
}

// The text of a line, from the start of `out`, which has room enough for any line. How many bytes it has.
pub fn put_text(line: Line, out: &mut [u8; 4096]) -> usize
    ensures value { result ≡ length (text_of (line_said line)) }
    ensures out_after { out.new ≡ over (text_of (line_said line)) out.old }
    ensures prefix_len { IsPrefixLen result out.new }
{
    match line {
        Line::TooLong => {
            let _ = put_bytes(b"too long\n", out);
            9
        }
        Line::Accepted(said) => put_accepted(said, out),
        Line::Refused(refusal) => put_refused(refusal, out),
    }
}

// The text of the line about an input, from the start of `out`: all that the reading program prints. How many bytes it has.
pub fn line_text(input: &[u8], out: &mut [u8; 4096]) -> usize
    ensures value { result ≡ length (text_of (line_of input.now)) }
    ensures out_after { out.new ≡ over (text_of (line_of input.now)) out.old }
    ensures prefix_len { IsPrefixLen result out.new }
{
    put_text(line_of(input), out)
}
