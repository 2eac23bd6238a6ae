// File transfer messages and the desk check.
ghost use Rattle.std.specs.Prelude.{◌≡◌, length};
ghost use Rattle.paper.specs.Request.{read_request, rewrite_request};
ghost use Rattle.paper.specs.Response.{read_response, rewrite_response};
ghost use Rattle.paper.specs.Desk.{desk_check};
ghost use Rattle.station.specs.Records.{request_record, response_record, desk_record, WroteRecord, RewroteRecord};
ghost use Rattle.station.specs.Flat.{accepted_message, accepted_request, accepted_response};
ghost use Rattle.station.specs.Handed.{request_handed, response_handed, request_sizes, response_sizes};

use crate::records::{DeskRecord, FileTransferRecord, RewrittenRecord, WrittenRecord, flat};
use desk_check::desk_check;
use file_operation::mode::FileOperationMode;
use file_operation::payload::{
    DataFormatIdentifier, FileSizePayload, PositionPayload, SizePayload,
};
use request_file_transfer::read::{RequestFileTransferRequest, read_request};
use request_file_transfer::rewrite::rewrite_request;
use request_file_transfer::write::write_request;
use request_file_transfer_response::read::{RequestFileTransferResponse, read_response};
use request_file_transfer_response::rewrite::rewrite_response;
use request_file_transfer_response::write::write_response;
use wire::place::Place;
use wire::size::Size;

// What a request and a response have in common, and a position.
fn accepted_message(
    kind: FileOperationMode,
    place: Place,
    format: DataFormatIdentifier,
    uncompressed: Size,
    compressed: Size,
    position: u64,
    tail: usize,
) -> FileTransferRecord
    ensures { result ≡ accepted_message kind place format uncompressed compressed position tail }
{
    FileTransferRecord {
        kind: u64::from(u8::from(kind)),
        start: place.start as u64,
        len: place.len as u64,
        format: u64::from(u8::from(format)),
        uncompressed_high: uncompressed.high,
        uncompressed_low: uncompressed.low,
        compressed_high: compressed.high,
        compressed_low: compressed.low,
        position,
        tail: tail as u64,
        ..FileTransferRecord::default()
    }
}

// The record of a request that was read, and of where it ends.
impl From<(RequestFileTransferRequest, usize)> for FileTransferRecord {
    ghost from_gives = { λ x r. r ≡ accepted_request x.0 x.1 };

    fn from((q, tail): (RequestFileTransferRequest, usize)) -> FileTransferRecord {
        accepted_message(
            q.kind,
            q.file_path_and_name,
            q.data_format_identifier,
            q.size.file_size_uncompressed,
            q.size.file_size_compressed,
            0,
            tail,
        )
    }
}

#[unsafe(no_mangle)]
pub extern "C" fn skr_read_request(message: &[u8]) -> FileTransferRecord
    ensures { result ≡ request_record (length message.now) (read_request message.now) }
{
    flat(read_request(message))
}

// The record of a response that was read, and of where it ends.
impl From<(RequestFileTransferResponse, usize)> for FileTransferRecord {
    ghost from_gives = { λ x r. r ≡ accepted_response x.0 x.1 };

    fn from((q, tail): (RequestFileTransferResponse, usize)) -> FileTransferRecord {
        accepted_message(
            q.kind,
            q.max_number_of_block_length,
            q.data_format_identifier,
            q.file_size.file_size_uncompressed,
            q.file_size.file_size_compressed,
            q.position.file_position,
            tail,
        )
    }
}

#[unsafe(no_mangle)]
pub extern "C" fn skr_read_response(message: &[u8]) -> FileTransferRecord
    ensures { result ≡ response_record (length message.now) (read_response message.now) }
{
    flat(read_response(message))
}

// Two sizes, each handed over in two halves, as a request has them. Of requests and of responses they are two types, as in the original (docs/DIFFERENCES.md).
pub fn request_sizes(
    uncompressed_high: u64,
    uncompressed_low: u64,
    compressed_high: u64,
    compressed_low: u64,
) -> SizePayload
    ensures { result ≡ request_sizes uncompressed_high uncompressed_low compressed_high compressed_low }
{
    SizePayload {
        file_size_uncompressed: Size {
            high: uncompressed_high,
            low: uncompressed_low,
        },
        file_size_compressed: Size {
            high: compressed_high,
            low: compressed_low,
        },
    }
}

// The same, as a response has them.
pub fn response_sizes(
    uncompressed_high: u64,
    uncompressed_low: u64,
    compressed_high: u64,
    compressed_low: u64,
) -> FileSizePayload
    ensures { result ≡ response_sizes uncompressed_high uncompressed_low compressed_high compressed_low }
{
    FileSizePayload {
        file_size_uncompressed: Size {
            high: uncompressed_high,
            low: uncompressed_low,
        },
        file_size_compressed: Size {
            high: compressed_high,
            low: compressed_low,
        },
    }
}

#[unsafe(no_mangle)]
pub extern "C" fn skr_write_request(
    kind: u8,
    name: &[u8],
    format: u8,
    uncompressed_high: u64,
    uncompressed_low: u64,
    compressed_high: u64,
    compressed_low: u64,
    room: &mut [u8],
) -> WrittenRecord
    ensures { WroteRecord (request_handed kind name.now format uncompressed_high uncompressed_low compressed_high compressed_low)
        room.old result room.new }
{
    let format = DataFormatIdentifier::from(format);
    let size = request_sizes(
        uncompressed_high,
        uncompressed_low,
        compressed_high,
        compressed_low,
    );
    match FileOperationMode::try_from(kind) {
        Ok(kind) => flat(write_request(kind, name, format, size, room)),
        Err(e) => e.into(),
    }
}

#[unsafe(no_mangle)]
pub extern "C" fn skr_write_response(
    kind: u8,
    block: &[u8],
    format: u8,
    uncompressed_high: u64,
    uncompressed_low: u64,
    compressed_high: u64,
    compressed_low: u64,
    position: u64,
    room: &mut [u8],
) -> WrittenRecord
    ensures { WroteRecord (response_handed kind block.now format uncompressed_high uncompressed_low compressed_high compressed_low position)
        room.old result room.new }
{
    let format = DataFormatIdentifier::from(format);
    let size = response_sizes(
        uncompressed_high,
        uncompressed_low,
        compressed_high,
        compressed_low,
    );
    let position = PositionPayload {
        file_position: position,
    };
    match FileOperationMode::try_from(kind) {
        Ok(kind) => flat(write_response(kind, block, format, size, position, room)),
        Err(e) => e.into(),
    }
}

#[unsafe(no_mangle)]
pub extern "C" fn skr_rewrite_request(message: &[u8], room: &mut [u8]) -> RewrittenRecord
    ensures { RewroteRecord (length message.now) (rewrite_request message.now) room.old result room.new }
{
    flat(rewrite_request(message, room))
}

#[unsafe(no_mangle)]
pub extern "C" fn skr_rewrite_response(message: &[u8], room: &mut [u8]) -> RewrittenRecord
    ensures { RewroteRecord (length message.now) (rewrite_response message.now) room.old result room.new }
{
    flat(rewrite_response(message, room))
}

#[unsafe(no_mangle)]
pub extern "C" fn skr_desk_check(message: &[u8]) -> DeskRecord
    ensures { result ≡ desk_record (desk_check message.now) }
{
    flat(desk_check(message))
}
