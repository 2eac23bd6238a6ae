// The text of the program's line, in ASCII, ended by a line feed. Each function puts its text at the start of `out`, or after the first `at` bytes of it,
// and answers how many bytes the text then has: no library here uses a heap. `message_text` lends more room than any line needs.
// No `write!`, for the reason that stands in crate `ascii_text`.
ghost use Rattle.std.specs.Prelude.{◌≡◌, ◌≤◌, length};
ghost use Rattle.io.specs.Counts.{IsPrefixLen};
ghost use Rattle.paper.specs.Answer.{over};
ghost use Rattle.paper.specs.MessageProgram.{mark, message_line};
ghost use Rattle.form.specs.Text.{Grew};
ghost use Rattle.message_line.specs.Text.{transfer_text, request_line, response_line, routine_request_line, routine_response_line, negative_line};

use crate::transfer::{request_format, request_normal, response_format, response_normal};
use ascii_text::put_refused;
use form::{put, put_form, put_hex};
use message::negative::NegativeAnswer;
use message::read::{Message, read_message};
use request_file_transfer::read::RequestFileTransferRequest;
use request_file_transfer_response::read::RequestFileTransferResponse;
use routine_control::request::RoutineControlRequest;
use routine_control::response::RoutineControlResponse;
use wire::write::put_bytes;

// What the line of a file transfer message tells: `part` is the length of its name or block length, `normal` that of the message written anew,
// and `left` counts the bytes behind the message.
#[derive(Clone, Copy)]
struct Transfer {
    kind: u8,
    part: usize,
    format: Option<u8>,
    normal: u64,
    left: usize,
}

// `with_byte` is the line's form where there is a format byte, `with_dash` where there is none.
fn put_transfer(with_byte: &[u8], with_dash: &[u8], line: Transfer, out: &mut [u8]) -> usize
    requires { (length with_byte.now ≤ 100) × (length with_dash.now ≤ 100) }
    ensures { Grew (transfer_text with_byte.now with_dash.now line) 200 0 out.old result out.new }
{
    let kind = u64::from(line.kind);
    let part = line.part as u64;
    let left = line.left as u64;
    match line.format {
        Some(f) => put_form(
            with_byte,
            &[kind, part, u64::from(f), line.normal, left],
            out,
            0,
        ),
        None => put_form(with_dash, &[kind, part, line.normal, left], out, 0),
    }
}

#[tactic(auto, using(crate::proofs::Lines::request_put))]
fn file_request(input: &[u8], q: RequestFileTransferRequest, tail: usize, out: &mut [u8]) -> usize
    requires { tail ≤ length input.now }
    ensures { Grew (request_line input.now q tail) 200 0 out.old result out.new }
{
    let line = Transfer {
        kind: q.kind.value(),
        part: q.file_path_and_name.len,
        format: request_format(q.kind, q.data_format_identifier),
        normal: request_normal(input, q),
        left: input.len() - tail,
    };
    put_transfer(
        b"request kind _ name _ format _ normal _ left _\n",
        b"request kind _ name _ format - normal _ left _\n",
        line,
        out,
    )
}

#[tactic(auto, using(crate::proofs::Lines::response_put))]
fn file_response(input: &[u8], q: RequestFileTransferResponse, tail: usize, out: &mut [u8]) -> usize
    requires { tail ≤ length input.now }
    ensures { Grew (response_line input.now q tail) 200 0 out.old result out.new }
{
    let line = Transfer {
        kind: q.kind.value(),
        part: q.max_number_of_block_length.len,
        format: response_format(q.kind, q.data_format_identifier),
        normal: response_normal(input, q),
        left: input.len() - tail,
    };
    put_transfer(
        b"response kind _ block _ format _ normal _ left _\n",
        b"response kind _ block _ format - normal _ left _\n",
        line,
        out,
    )
}

fn routine_request(q: RoutineControlRequest, out: &mut [u8]) -> usize
    ensures { Grew (routine_request_line q) 200 0 out.old result out.new }
{
    let numbers = [
        u64::from(q.sub_function.value()),
        u64::from(q.suppress_positive_response),
        u64::from(q.routine_id),
        q.option_record.len as u64,
    ];
    put_form(
        b"routine request sub-function _ suppress _ identifier _ record _\n",
        &numbers,
        out,
        0,
    )
}

fn routine_response(q: RoutineControlResponse, out: &mut [u8]) -> usize
    ensures { Grew (routine_response_line q) 200 0 out.old result out.new }
{
    let numbers = [
        u64::from(q.sub_function.value()),
        u64::from(q.routine_id),
        q.status_record.len as u64,
    ];
    put_form(
        b"routine response sub-function _ identifier _ record _\n",
        &numbers,
        out,
        0,
    )
}

fn put_mark(listed: bool, out: &mut [u8], at: usize) -> usize
    ensures { Grew (mark listed) 10 at out.old result out.new }
{
    if listed {
        put(b" listed\n", out, at)
    } else {
        put(b" unlisted\n", out, at)
    }
}

fn negative(q: NegativeAnswer, out: &mut [u8]) -> usize
    ensures { Grew (negative_line q) 200 0 out.old result out.new }
{
    let a = put(b"negative 0x", out, 0);
    let b = put_hex(q.service.value(), out, a);
    let c = put(b" 0x", out, b);
    let d = put_hex(q.code, out, c);
    put_mark(q.listed, out, d)
}

// The text of the line about an input, from the start of `out`: all that the program prints. How many bytes it has.
// Above 4,096 bytes the input is too long; else one whole message is read.
pub fn message_text(input: &[u8], out: &mut [u8; 4096]) -> usize
    ensures value { result ≡ length (message_line input.now) }
    ensures out_after { out.new ≡ over (message_line input.now) out.old }
    ensures prefix_len { IsPrefixLen result out.new }
{
    if 4096 < input.len() {
        let _ = put_bytes(b"too long\n", out);
        return 9;
    }
    match read_message(input) {
        Ok(Message::FileRequest(q, tail)) => file_request(input, q, tail, out),
        Ok(Message::RoutineRequest(q)) => routine_request(q, out),
        Ok(Message::FileResponse(q, tail)) => file_response(input, q, tail, out),
        Ok(Message::RoutineResponse(q)) => routine_response(q, out),
        Ok(Message::Negative(q)) => negative(q, out),
        Err(e) => put_refused(e, out),
    }
}
