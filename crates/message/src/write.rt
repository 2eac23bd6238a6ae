// Writing a whole message: document 01's writer is lent the room behind the service byte, and only where it wrote is that byte put before it.
// So its own checks come first, a refusal changes nothing, and 7 counts the service byte.
// The fields are handed over one by one, as to document 01's writers: a request or a response that was read holds a place, and no bytes.
ghost use Rattle.std.specs.Prelude.{◌≡◌, ℕ, ◌≤◌, List};
ghost use Rattle.paper.specs.Answer.{Answer};
ghost use Rattle.paper.specs.Request.{write_request};
ghost use Rattle.paper.specs.Response.{write_response};
ghost use Rattle.paper.specs.WholeMessage.{file_request, routine_request, file_response, routine_response, service_byte, led};
ghost use Rattle.wire.specs.Refusals.{row};
ghost use Rattle.wire.specs.Writing.{told, Wrote};
ghost use Rattle.request_file_transfer.specs.Writing.{request_of};
ghost use Rattle.request_file_transfer_response.specs.Writing.{response_of};
ghost use Rattle.routine_control.specs.Request.{request_to_write};
ghost use Rattle.routine_control.specs.Response.{response_to_write};
ghost use Rattle.message.specs.Service.{sort_of};
ghost use Rattle.message.specs.Writing.{refusal_on, needed_by, spoken_of, ServicePut, Leads, Writes};

use crate::service::Sort;
use file_operation::mode::FileOperationMode;
use file_operation::payload::{
    DataFormatIdentifier, FileSizePayload, PositionPayload, SizePayload,
};
use request_file_transfer::write::write_request;
use request_file_transfer_response::write::write_response;
use routine_control::request::write_routine_request;
use routine_control::response::write_routine_response;
use routine_control::sub_function::RoutineControlSubFunction;
use wire::refusal::Refusal;
use wire::write::put_byte;

// The refusal of the rest as that of the whole message: 7 counts the service byte, in what is needed and in the room.
fn refusal_on(e: Refusal, room: usize) -> Refusal
    requires { needed_by (row e) ≤ 65572 }
    ensures { row result ≡ refusal_on room (row e) }
{
    match e {
        Refusal::NoRoom { needed, room: _ } => Refusal::NoRoom {
            needed: needed + 1,
            room,
        },
        _ => e,
    }
}

// The service byte, where `w` says that the rest was written behind it; and the answer about the whole.
fn put_service(sort: Sort, w: Result<usize, Refusal>, out: &mut [u8]) -> Result<usize, Refusal>
    requires { spoken_of (told w) ≤ 65572 }
    ensures { ServicePut (service_byte (sort_of sort)) w out.old result out.new }
{
    match w {
        Ok(n) => {
            let _ = put_byte(u8::from(sort), out);
            Ok(n + 1)
        }
        Err(e) => Err(refusal_on(e, out.len())),
    }
}

// A message of the sort: `write` is lent the room behind the service byte.
fn write_led<W: FnOnce(&mut [u8]) -> Result<usize, Refusal>>(
    sort: Sort,
    out: &mut [u8],
    write: W,
) -> Result<usize, Refusal>
    requires callable { W.IsAlwaysCallable write }
    requires leads { (message : Answer (List ℕ)) × Leads message × Writes W.FnOnce write message }
    ensures { (message : Answer (List ℕ)) → Leads message → Writes W.FnOnce write message → Wrote (led (sort_of sort) message) out.old result out.new }
{
    let at = out.len().min(1);
    let w = write(&mut out[at..]);
    put_service(sort, w, out)
}

// A file transfer request behind its service byte: the refusals of `write_request`, and 7 with the service byte counted. Refused, nothing changes.
pub fn write_request_message(
    kind: FileOperationMode,
    file_path_and_name: &[u8],
    data_format_identifier: DataFormatIdentifier,
    size: SizePayload,
    out: &mut [u8],
) -> Result<usize, Refusal>
    ensures { Wrote (led file_request (write_request (request_of kind file_path_and_name.now data_format_identifier.0 size))) out.old result out.new }
{
    write_led(Sort::FileRequest, out, |rest| {
        write_request(kind, file_path_and_name, data_format_identifier, size, rest)
    })
}

// A file transfer response behind its service byte, likewise.
pub fn write_response_message(
    kind: FileOperationMode,
    max_number_of_block_length: &[u8],
    data_format_identifier: DataFormatIdentifier,
    file_size: FileSizePayload,
    position: PositionPayload,
    out: &mut [u8],
) -> Result<usize, Refusal>
    ensures { Wrote (led file_response (write_response (response_of kind max_number_of_block_length.now data_format_identifier.0 file_size position.file_position))) out.old result out.new }
{
    write_led(Sort::FileResponse, out, |rest| {
        write_response(
            kind,
            max_number_of_block_length,
            data_format_identifier,
            file_size,
            position,
            rest,
        )
    })
}

// A routine request behind its service byte, likewise.
pub fn write_routine_request_message(
    suppress_positive_response: bool,
    sub_function: RoutineControlSubFunction,
    routine_id: u16,
    option_record: &[u8],
    out: &mut [u8],
) -> Result<usize, Refusal>
    ensures { Wrote (led routine_request (request_to_write suppress_positive_response sub_function routine_id option_record.now)) out.old result out.new }
{
    write_led(Sort::RoutineRequest, out, |rest| {
        write_routine_request(
            suppress_positive_response,
            sub_function,
            routine_id,
            option_record,
            rest,
        )
    })
}

// A routine response behind its service byte, likewise.
pub fn write_routine_response_message(
    sub_function: RoutineControlSubFunction,
    routine_id: u16,
    status_record: &[u8],
    out: &mut [u8],
) -> Result<usize, Refusal>
    ensures { Wrote (led routine_response (response_to_write sub_function routine_id status_record.now)) out.old result out.new }
{
    write_led(Sort::RoutineResponse, out, |rest| {
        write_routine_response(sub_function, routine_id, status_record, rest)
    })
}
