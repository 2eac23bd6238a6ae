// What a row of the table asks: each function runs the real ones on the row's bytes, and answers whether they say what the row says.
// Its contract says what that is on paper, so that a row passes exactly if it is right.
ghost use Rattle.std.specs.Prelude.{◌≡◌, ◌+◌, ◌*◌, ◌^◌, ◌≤◌, ◌↔◌, IsTrue, [], ◌∷◌, length};
ghost use Rattle.paper.specs.Answer.{accepted, refused, ◌leaving◌};
ghost use Rattle.paper.specs.Utf8.{is_utf8};
ghost use Rattle.paper.specs.Sizes.{width};
ghost use Rattle.paper.specs.Request.{request, read_request, rewrite_request};
ghost use Rattle.paper.specs.Response.{response, read_response};
ghost use Rattle.paper.specs.RoutineControl.{read_routine_request, read_routine_response};
ghost use Rattle.paper.specs.TroubleCode.{trouble_code, from_number};
ghost use Rattle.wire.specs.Refusals.{row};
ghost use Rattle.wire.specs.Size.{value};
ghost use Rattle.file_operation.specs.Mode.{kind_of};
ghost use Rattle.routine_control.specs.SubFunction.{sub_of};
ghost use Rattle.routine_control.specs.Request.{routine_request};

use dtc::status::DtcRecord;
use file_operation::mode::FileOperationMode;
use request_file_transfer::read::read_request;
use request_file_transfer::rewrite::rewrite_request;
use request_file_transfer_response::read::read_response;
use routine_control::request::read_routine_request;
use routine_control::response::read_routine_response;
use routine_control::sub_function::RoutineControlSubFunction;
use wire::place::{Place, part_at};
use wire::refusal::Refusal;
use wire::size::{Size, width_of_both};

// A size below 2^64.
fn is(x: Size, low: u64) -> bool
    ensures { IsTrue result ↔ (value x ≡ low) }
{
    x == Size { high: 0, low }
}

pub(crate) fn request_refused(s: &[u8], refusal: Refusal) -> bool
    ensures { IsTrue result ↔ (read_request s.now ≡ refused (row refusal)) }
{
    read_request(s).err() == Some(refusal)
}

// Accepted with nothing left over.
pub(crate) fn request_is(
    s: &[u8],
    kind: FileOperationMode,
    name: &[u8],
    format: u8,
    uncompressed: u64,
    compressed: u64,
) -> bool
    ensures { IsTrue result ↔ (read_request s.now ≡ accepted (request (kind_of kind) name.now format uncompressed compressed leaving [])) }
{
    let Ok((q, tail)) = read_request(s) else {
        return false;
    };
    q.kind == kind
        && part_at(s, q.file_path_and_name) == name
        && q.data_format_identifier.value() == format
        && is(q.size.file_size_uncompressed, uncompressed)
        && is(q.size.file_size_compressed, compressed)
        && tail == s.len()
}

// Accepted with nothing left over, and rewritten in at most 64 bytes.
pub(crate) fn rewritten_to(s: &[u8], expected: &[u8]) -> bool
    ensures { IsTrue result ↔ ((length expected.now ≤ 64) × (rewrite_request s.now ≡ accepted (expected.now leaving []))) }
{
    let mut out = [0u8; 64];
    let Ok((written, tail)) = rewrite_request(s, &mut out) else {
        return false;
    };
    // `part_at` takes any place; `out[..written]` would have to be shown to lie within `out` first.
    let place = Place {
        start: 0,
        len: written,
    };
    part_at(&out, place) == expected && tail == s.len()
}

// Accepted with nothing left over; no sizes but the first, and no position.
pub(crate) fn response_is(
    s: &[u8],
    kind: FileOperationMode,
    block: &[u8],
    format: u8,
    uncompressed: u64,
) -> bool
    ensures { IsTrue result ↔ (read_response s.now ≡ accepted (response (kind_of kind) block.now format uncompressed 0 0 leaving [])) }
{
    let Ok((q, tail)) = read_response(s) else {
        return false;
    };
    q.kind == kind
        && part_at(s, q.max_number_of_block_length) == block
        && q.data_format_identifier.value() == format
        && is(q.file_size.file_size_uncompressed, uncompressed)
        && is(q.file_size.file_size_compressed, 0)
        && q.position.file_position == 0
        && tail == s.len()
}

pub(crate) fn routine_request_is(
    s: &[u8],
    suppress: bool,
    sub_function: RoutineControlSubFunction,
    identifier: u16,
    record: &[u8],
) -> bool
    ensures { IsTrue result ↔ (read_routine_request s.now ≡ accepted (routine_request suppress (sub_of sub_function) identifier «record».now leaving [])) }
{
    let Ok(q) = read_routine_request(s) else {
        return false;
    };
    q.suppress_positive_response == suppress
        && q.sub_function == sub_function
        && q.routine_id == identifier
        && part_at(s, q.option_record) == record
}

pub(crate) fn routine_response_refused(s: &[u8], refusal: Refusal) -> bool
    ensures { IsTrue result ↔ (read_routine_response s.now ≡ refused (row refusal)) }
{
    read_routine_response(s).err() == Some(refusal)
}

// The width of a larger size, beside a smaller one.
pub(crate) fn width_is(larger: Size, bytes: usize) -> bool
    ensures { IsTrue result ↔ (width (1 ∷ value larger ∷ []) ≡ bytes) }
{
    width_of_both(Size { high: 0, low: 1 }, larger) == bytes
}

pub(crate) fn name_is(name: &[u8], good: bool) -> bool
    ensures { IsTrue result ↔ (is_utf8 name.now ≡ good) }
{
    utf8::is_utf8(name) == good
}

pub(crate) fn number_is(n: u32, high: u8, middle: u8, low: u8) -> bool
    ensures { IsTrue result ↔ (from_number n ≡ accepted (trouble_code high middle low)) }
{
    DtcRecord::try_from(n) == Ok(DtcRecord::new(high, middle, low))
}

pub(crate) fn number_refused(n: u32, refusal: Refusal) -> bool
    ensures { IsTrue result ↔ (from_number n ≡ refused (row refusal)) }
{
    DtcRecord::try_from(n) == Err(refusal)
}
