// The text of the program's line: words and decimal numbers in ASCII, ended by a line feed. Each function puts its text at the start of `out` and answers
// how many bytes it has. `why_text` lends more room than any line needs.
// No `write!`, for the reason that stands in crate `ascii_text`.
ghost use Rattle.std.specs.Prelude.{◌≡◌, ◌≤◌, length};
ghost use Rattle.io.specs.Counts.{IsPrefixLen};
ghost use Rattle.paper.specs.Answer.{over};
ghost use Rattle.paper.specs.WhyProgram.{refused_text, why_text, why_line, checks_of, how_to_use};
ghost use Rattle.wire.specs.Refusals.{row};
ghost use Rattle.ascii_text.specs.Text.{Put};
ghost use Rattle.reason.specs.Reason.{field_said, fault_said, why_stops};
ghost use Rattle.reason_line.specs.Sort.{sort_said};
ghost use Rattle.reason_line.specs.Text.{place_words, end_text};

use crate::sort::{Sort, why};
use ascii_text::put_field;
use reason::reason::{Fault, Field, Reason};
use wire::refusal::Refusal;
use wire::write::put_bytes;

fn put_word(word: &[u8], out: &mut [u8]) -> usize
    ensures { Put word.now result (length word.now) out.old out.new }
{
    let _ = put_bytes(word, out);
    word.len()
}

// `refused N A B`, with no line feed.
fn put_refusal(refusal: Refusal, out: &mut [u8]) -> usize
    requires { 70 ≤ length out.old }
    ensures { Put (refused_text (row refusal)) result 70 out.old out.new }
{
    let a = put_field(b"refused ", refusal.number() as u64, out);
    let b = a + put_field(b" ", refusal.first() as u64, &mut out[a..]);
    b + put_field(b" ", refusal.second() as u64, &mut out[b..])
}

// `: FIELD at `.
fn place_words(field: Field) -> &'static [u8]
    ensures words { result.now ≡ place_words (field_said field) }
    ensures short { length result.now ≤ 18 }
{
    match field {
        Field::Mode => b": mode at ",
        Field::Name => b": name at ",
        Field::FormatByte => b": format byte at ",
        Field::SizeGroup => b": size group at ",
        Field::BlockLength => b": block length at ",
        Field::Position => b": position at ",
    }
}

// `: SENTENCE` and the line feed. The sentence is fixed for each check.
fn end_words(fault: Fault) -> &'static [u8]
    ensures words { result.now ≡ end_text (fault_said fault) }
    ensures short { length result.now ≤ 64 }
{
    match fault {
        Fault::NoMode => b": the message is empty\n",
        Fault::NoNameLength => b": the message ends before it says how long the name is\n",
        Fault::CutName => b": the message ends inside the name\n",
        Fault::NotUtf8 => b": the name is not UTF-8\n",
        Fault::NoSuchMode => b": no file operation has this number\n",
        Fault::NoFormat => b": the message ends before the format byte\n",
        Fault::NoWidth => b": the message ends before it says how wide the sizes are\n",
        Fault::CutSizes => b": the message ends inside the sizes\n",
        Fault::WrongWidth => b": a size is 1 to 16 bytes wide\n",
        Fault::NoCount => b": the message ends before it says how long the block length is\n",
        Fault::CutBlock => b": the message ends inside the block length\n",
        Fault::CutPosition => b": the message ends inside the position\n",
    }
}

fn put_reason(x: Reason, out: &mut [u8]) -> usize
    requires { 172 ≤ length out.old }
    ensures { Put (why_text (why_stops x.fault x.offset x.refusal)) result 172 out.old out.new }
{
    let a = put_refusal(x.refusal, out);
    let b = a + put_field(place_words(x.fault.field()), x.offset as u64, &mut out[a..]);
    b + put_word(end_words(x.fault), &mut out[b..])
}

// The text of the line about an input, from the start of `out`: all that the program prints of it. How many bytes it has.
// Above 131,072 bytes the input is too long; else it is taken for one message of this sort.
pub fn why_text(sort: Sort, input: &[u8], out: &mut [u8; 4096]) -> usize
    ensures value { result ≡ length (why_line (checks_of (sort_said sort)) input.now) }
    ensures out_after { out.new ≡ over (why_line (checks_of (sort_said sort)) input.now) out.old }
    ensures prefix_len { IsPrefixLen result out.new }
{
    if 131072 < input.len() {
        return put_word(b"too long\n", out);
    }
    match why(sort, input) {
        Ok(()) => put_word(b"accepted\n", out),
        Err(x) => put_reason(x, out),
    }
}

// How the program is used, which it says where its argument names no sort.
pub fn usage_text(out: &mut [u8; 4096]) -> usize
    ensures value { result ≡ length how_to_use }
    ensures out_after { out.new ≡ over how_to_use out.old }
    ensures prefix_len { IsPrefixLen result out.new }
{
    put_word(
        b"usage: why_refused request < MESSAGE, or why_refused response < MESSAGE\n",
        out,
    )
}
