// File transfer messages and the desk check.
ghost use Rattle.std.specs.Prelude.{◌≡◌, length};
ghost use Rattle.paper.specs.Request.{read_request, rewrite_request};
ghost use Rattle.paper.specs.Response.{read_response, rewrite_response};
ghost use Rattle.paper.specs.Desk.{desk_check};
ghost use Rattle.station.specs.Records.{request_record, response_record, desk_record, WroteRecord, RewroteRecord};
ghost use Rattle.station.specs.Handed.{request_handed, response_handed};

use station::records::{DeskRecord, FileTransferRecord, RewrittenRecord, WrittenRecord};

#[unsafe(no_mangle)]
pub extern "C" fn skr_read_request(message: &[u8]) -> FileTransferRecord
    ensures { result ≡ request_record (length message.now) (read_request message.now) }
{
    station::transfer::skr_read_request(message)
}

#[unsafe(no_mangle)]
pub extern "C" fn skr_read_response(message: &[u8]) -> FileTransferRecord
    ensures { result ≡ response_record (length message.now) (read_response message.now) }
{
    station::transfer::skr_read_response(message)
}

#[unsafe(no_mangle)]
pub extern "C" fn skr_write_request(
    kind: u8,
    name: &[u8],
    format: u8,
    uncompressed_high: u64,
    uncompressed_low: u64,
    compressed_high: u64,
    compressed_low: u64,
    room: &mut [u8],
) -> WrittenRecord
    ensures { WroteRecord (request_handed kind name.now format uncompressed_high uncompressed_low compressed_high compressed_low)
        room.old result room.new }
{
    station::transfer::skr_write_request(
        kind,
        name,
        format,
        uncompressed_high,
        uncompressed_low,
        compressed_high,
        compressed_low,
        room,
    )
}

#[unsafe(no_mangle)]
pub extern "C" fn skr_write_response(
    kind: u8,
    block: &[u8],
    format: u8,
    uncompressed_high: u64,
    uncompressed_low: u64,
    compressed_high: u64,
    compressed_low: u64,
    position: u64,
    room: &mut [u8],
) -> WrittenRecord
    ensures { WroteRecord (response_handed kind block.now format uncompressed_high uncompressed_low compressed_high compressed_low position)
        room.old result room.new }
{
    station::transfer::skr_write_response(
        kind,
        block,
        format,
        uncompressed_high,
        uncompressed_low,
        compressed_high,
        compressed_low,
        position,
        room,
    )
}

#[unsafe(no_mangle)]
pub extern "C" fn skr_rewrite_request(message: &[u8], room: &mut [u8]) -> RewrittenRecord
    ensures { RewroteRecord (length message.now) (rewrite_request message.now) room.old result room.new }
{
    station::transfer::skr_rewrite_request(message, room)
}

#[unsafe(no_mangle)]
pub extern "C" fn skr_rewrite_response(message: &[u8], room: &mut [u8]) -> RewrittenRecord
    ensures { RewroteRecord (length message.now) (rewrite_response message.now) room.old result room.new }
{
    station::transfer::skr_rewrite_response(message, room)
}

#[unsafe(no_mangle)]
pub extern "C" fn skr_desk_check(message: &[u8]) -> DeskRecord
    ensures { result ≡ desk_record (desk_check message.now) }
{
    station::transfer::skr_desk_check(message)
}
