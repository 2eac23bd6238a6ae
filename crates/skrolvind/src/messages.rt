// Whole messages with their service byte: read, of all five sorts, and written.
ghost use Rattle.std.specs.Prelude.{◌≡◌, length};
ghost use Rattle.paper.specs.WholeMessage.{file_request, routine_request, file_response, routine_response, read_message, led, write_negative};
ghost use Rattle.station.specs.Records.{WroteRecord};
ghost use Rattle.station.specs.Handed.{request_handed, response_handed, routine_request_handed, routine_response_handed};
ghost use Rattle.archive.specs.Messages.{message_record};

use archive::messages::MessageRecord;
use station::records::WrittenRecord;

#[unsafe(no_mangle)]
pub extern "C" fn skr_read_message(message: &[u8]) -> MessageRecord
    ensures { result ≡ message_record (length message.now) (read_message message.now) }
{
    archive::messages::skr_read_message(message)
}

#[unsafe(no_mangle)]
pub extern "C" fn skr_write_request_message(
    kind: u8,
    name: &[u8],
    format: u8,
    uncompressed_high: u64,
    uncompressed_low: u64,
    compressed_high: u64,
    compressed_low: u64,
    room: &mut [u8],
) -> WrittenRecord
    ensures { WroteRecord (led file_request (request_handed kind name.now format uncompressed_high uncompressed_low compressed_high compressed_low))
        room.old result room.new }
{
    archive::messages::skr_write_request_message(
        kind,
        name,
        format,
        uncompressed_high,
        uncompressed_low,
        compressed_high,
        compressed_low,
        room,
    )
}

#[unsafe(no_mangle)]
pub extern "C" fn skr_write_response_message(
    kind: u8,
    block: &[u8],
    format: u8,
    uncompressed_high: u64,
    uncompressed_low: u64,
    compressed_high: u64,
    compressed_low: u64,
    position: u64,
    room: &mut [u8],
) -> WrittenRecord
    ensures { WroteRecord (led file_response (response_handed kind block.now format uncompressed_high uncompressed_low compressed_high compressed_low position))
        room.old result room.new }
{
    archive::messages::skr_write_response_message(
        kind,
        block,
        format,
        uncompressed_high,
        uncompressed_low,
        compressed_high,
        compressed_low,
        position,
        room,
    )
}

#[unsafe(no_mangle)]
pub extern "C" fn skr_write_routine_request_message(
    suppress: bool,
    sub_function: u8,
    identifier: u16,
    record: &[u8],
    room: &mut [u8],
) -> WrittenRecord
    ensures { WroteRecord (led routine_request (routine_request_handed suppress sub_function identifier «record».now)) room.old result room.new }
{
    archive::messages::skr_write_routine_request_message(
        suppress,
        sub_function,
        identifier,
        record,
        room,
    )
}

#[unsafe(no_mangle)]
pub extern "C" fn skr_write_routine_response_message(
    sub_function: u8,
    identifier: u16,
    record: &[u8],
    room: &mut [u8],
) -> WrittenRecord
    ensures { WroteRecord (led routine_response (routine_response_handed sub_function identifier «record».now)) room.old result room.new }
{
    archive::messages::skr_write_routine_response_message(sub_function, identifier, record, room)
}

// A negative answer to the service of this byte.
#[unsafe(no_mangle)]
pub extern "C" fn skr_write_negative(service: u8, code: u8, room: &mut [u8]) -> WrittenRecord
    ensures { WroteRecord (write_negative service code) room.old result room.new }
{
    archive::messages::skr_write_negative(service, code, room)
}
