// File transfer messages: what their lines say of a format byte, and how long they are when they are written anew.
ghost use Rattle.std.specs.Prelude.{◌≡◌, []};
ghost use Rattle.paper.specs.Answer.{written};
ghost use Rattle.paper.specs.Request.{after_name, write_request};
ghost use Rattle.paper.specs.Response.{after_mode, write_response};
ghost use Rattle.paper.specs.ReadingProgram.{format_shown};
ghost use Rattle.paper.specs.WholeMessage.{file_request, file_response, led};
ghost use Rattle.paper.specs.MessageProgram.{response_format};
ghost use Rattle.wire.specs.Writing.{told};
ghost use Rattle.file_operation.specs.Mode.{kind_of};
ghost use Rattle.request_file_transfer.specs.Reading as request;
ghost use Rattle.request_file_transfer_response.specs.Reading as response;
ghost use Rattle.message_line.specs.Text.{shown_of, needed_in};

use file_operation::mode::FileOperationMode;
use file_operation::payload::DataFormatIdentifier;
use message::write::{write_request_message, write_response_message};
use request_file_transfer::layout::{AfterName, after_name};
use request_file_transfer::read::RequestFileTransferRequest;
use request_file_transfer_response::layout::after_mode;
use request_file_transfer_response::read::RequestFileTransferResponse;
use wire::place::part_at;
use wire::refusal::Refusal;

// The format byte, where the kind has one.
pub(crate) fn request_format(kind: FileOperationMode, format: DataFormatIdentifier) -> Option<u8>
    ensures { shown_of result ≡ format_shown (after_name (kind_of kind)) format.0 }
{
    match after_name(kind) {
        AfterName::FormatAndSizes | AfterName::FormatOnly => Some(format.value()),
        AfterName::Nothing => None,
    }
}

pub(crate) fn response_format(kind: FileOperationMode, format: DataFormatIdentifier) -> Option<u8>
    ensures { shown_of result ≡ response_format (after_mode (kind_of kind)) format.0 }
{
    after_mode(kind).and(Some(format.value()))
}

// How many bytes a writer needs, by its answer about a room that has none.
// 7 carries them first, and the first value is taken of any refusal, as `needed_in` has it.
fn needed(w: Result<usize, Refusal>) -> u64
    ensures { result ≡ needed_in (told w) }
{
    match w {
        Ok(n) => n as u64,
        Err(e) => e.first() as u64,
    }
}

// How many bytes a request of the input has when it is written anew behind its service byte.
pub(crate) fn request_normal(input: &[u8], q: RequestFileTransferRequest) -> u64
    ensures { result ≡ needed_in (written (led file_request (write_request (request.meant input.now q))) []).answer }
{
    needed(write_request_message(
        q.kind,
        part_at(input, q.file_path_and_name),
        q.data_format_identifier,
        q.size,
        &mut [],
    ))
}

// The same of a response.
pub(crate) fn response_normal(input: &[u8], q: RequestFileTransferResponse) -> u64
    ensures { result ≡ needed_in (written (led file_response (write_response (response.meant input.now q))) []).answer }
{
    needed(write_response_message(
        q.kind,
        part_at(input, q.max_number_of_block_length),
        q.data_format_identifier,
        q.file_size,
        q.position,
        &mut [],
    ))
}
