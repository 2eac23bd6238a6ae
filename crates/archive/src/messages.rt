// Whole messages with their service byte: read, of all five sorts, and written.
ghost use Rattle.std.specs.Prelude.{◌≡◌, length};
ghost use Rattle.paper.specs.WholeMessage.{file_request, routine_request, file_response, routine_response, service_byte, read_message, led, write_negative};
ghost use Rattle.wire.specs.Refusals.{row};
ghost use Rattle.message.specs.Service.{sort_of};
ghost use Rattle.station.specs.Records.{WroteRecord};
ghost use Rattle.station.specs.Handed.{request_handed, response_handed, routine_request_handed, routine_response_handed};
ghost use Rattle.archive.specs.Messages.{of_transfer, of_routine, of_negative, refused_message, accepted_message, message_record};

use file_operation::mode::FileOperationMode;
use file_operation::payload::{DataFormatIdentifier, PositionPayload};
use message::negative::{NegativeAnswer, write_negative};
use message::read::{Message, read_message};
use message::service::Sort;
use message::write::{
    write_request_message, write_response_message, write_routine_request_message,
    write_routine_response_message,
};
use routine_control::sub_function::RoutineControlSubFunction;
use station::records::{FileTransferRecord, RoutineRecord, WrittenRecord, flat};
use station::transfer::{request_sizes, response_sizes};
use wire::refusal::Refusal;

// A whole message that was read. `service` is its service byte; `start` and `len` are the place of the name, the block length or the routine record;
// `negative_service`, `code` and `listed` are of a negative answer. What the sort lacks is 0, as is what the kind lacks.
#[repr(C)]
#[derive(Clone, Copy, Default)]
pub struct MessageRecord {
    pub number: u64,
    pub first: u64,
    pub second: u64,
    pub service: u64,
    pub kind: u64,
    pub start: u64,
    pub len: u64,
    pub format: u64,
    pub uncompressed_high: u64,
    pub uncompressed_low: u64,
    pub compressed_high: u64,
    pub compressed_low: u64,
    pub position: u64,
    pub tail: u64,
    pub suppress: u64,
    pub sub_function: u64,
    pub identifier: u64,
    pub negative_service: u64,
    pub code: u64,
    pub listed: u64,
}

// A file transfer message behind the service byte of its sort.
// A function, here and below, and no `From` of a pair, which would be no shorter at the two calls.
fn of_transfer(sort: Sort, x: FileTransferRecord) -> MessageRecord
    ensures { result ≡ of_transfer (service_byte (sort_of sort)) x.start x }
{
    MessageRecord {
        number: x.number,
        first: x.first,
        second: x.second,
        service: u64::from(u8::from(sort)),
        kind: x.kind,
        start: x.start,
        len: x.len,
        format: x.format,
        uncompressed_high: x.uncompressed_high,
        uncompressed_low: x.uncompressed_low,
        compressed_high: x.compressed_high,
        compressed_low: x.compressed_low,
        position: x.position,
        tail: x.tail,
        ..MessageRecord::default()
    }
}

// A routine message behind the service byte of its sort.
fn of_routine(sort: Sort, x: RoutineRecord) -> MessageRecord
    ensures { result ≡ of_routine (service_byte (sort_of sort)) x.start x }
{
    MessageRecord {
        number: x.number,
        first: x.first,
        second: x.second,
        service: u64::from(u8::from(sort)),
        start: x.start,
        len: x.len,
        suppress: x.suppress,
        sub_function: x.sub_function,
        identifier: x.identifier,
        ..MessageRecord::default()
    }
}

impl From<NegativeAnswer> for MessageRecord {
    ghost from_gives = { λ q r. r ≡ of_negative q };

    fn from(q: NegativeAnswer) -> MessageRecord {
        MessageRecord {
            service: u64::from(u8::from(Sort::NegativeAnswer)),
            negative_service: u64::from(u8::from(q.service)),
            code: u64::from(q.code),
            listed: u64::from(q.listed),
            ..MessageRecord::default()
        }
    }
}

impl From<Refusal> for MessageRecord {
    ghost from_gives = { λ e r. r ≡ refused_message (row e) };

    fn from(e: Refusal) -> MessageRecord {
        MessageRecord {
            number: e.number() as u64,
            first: e.first() as u64,
            second: e.second() as u64,
            ..MessageRecord::default()
        }
    }
}

impl From<Message> for MessageRecord {
    ghost from_gives = { λ m r. r ≡ accepted_message m };

    fn from(m: Message) -> MessageRecord {
        match m {
            Message::FileRequest(q, tail) => of_transfer(Sort::FileRequest, (q, tail).into()),
            Message::RoutineRequest(q) => of_routine(Sort::RoutineRequest, q.into()),
            Message::FileResponse(q, tail) => of_transfer(Sort::FileResponse, (q, tail).into()),
            Message::RoutineResponse(q) => of_routine(Sort::RoutineResponse, q.into()),
            Message::Negative(q) => q.into(),
        }
    }
}

#[unsafe(no_mangle)]
pub extern "C" fn skr_read_message(message: &[u8]) -> MessageRecord
    ensures { result ≡ message_record (length message.now) (read_message message.now) }
{
    flat(read_message(message))
}

// The four writers take what their namesakes in crate `station` take: C hands all of it over, so each door has those parameters, and only the writer is another.
#[unsafe(no_mangle)]
pub extern "C" fn skr_write_request_message(
    kind: u8,
    name: &[u8],
    format: u8,
    uncompressed_high: u64,
    uncompressed_low: u64,
    compressed_high: u64,
    compressed_low: u64,
    room: &mut [u8],
) -> WrittenRecord
    ensures { WroteRecord (led file_request (request_handed kind name.now format uncompressed_high uncompressed_low compressed_high compressed_low))
        room.old result room.new }
{
    let format = DataFormatIdentifier::from(format);
    let size = request_sizes(
        uncompressed_high,
        uncompressed_low,
        compressed_high,
        compressed_low,
    );
    match FileOperationMode::try_from(kind) {
        Ok(kind) => flat(write_request_message(kind, name, format, size, room)),
        Err(e) => e.into(),
    }
}

#[unsafe(no_mangle)]
pub extern "C" fn skr_write_response_message(
    kind: u8,
    block: &[u8],
    format: u8,
    uncompressed_high: u64,
    uncompressed_low: u64,
    compressed_high: u64,
    compressed_low: u64,
    position: u64,
    room: &mut [u8],
) -> WrittenRecord
    ensures { WroteRecord (led file_response (response_handed kind block.now format uncompressed_high uncompressed_low compressed_high compressed_low position))
        room.old result room.new }
{
    let format = DataFormatIdentifier::from(format);
    let size = response_sizes(
        uncompressed_high,
        uncompressed_low,
        compressed_high,
        compressed_low,
    );
    let position = PositionPayload {
        file_position: position,
    };
    match FileOperationMode::try_from(kind) {
        Ok(kind) => flat(write_response_message(kind, block, format, size, position, room)),
        Err(e) => e.into(),
    }
}

#[unsafe(no_mangle)]
pub extern "C" fn skr_write_routine_request_message(
    suppress: bool,
    sub_function: u8,
    identifier: u16,
    record: &[u8],
    room: &mut [u8],
) -> WrittenRecord
    ensures { WroteRecord (led routine_request (routine_request_handed suppress sub_function identifier «record».now)) room.old result room.new }
{
    match RoutineControlSubFunction::try_from(sub_function) {
        Ok(f) => flat(write_routine_request_message(suppress, f, identifier, record, room)),
        Err(e) => e.into(),
    }
}

#[unsafe(no_mangle)]
pub extern "C" fn skr_write_routine_response_message(
    sub_function: u8,
    identifier: u16,
    record: &[u8],
    room: &mut [u8],
) -> WrittenRecord
    ensures { WroteRecord (led routine_response (routine_response_handed sub_function identifier «record».now)) room.old result room.new }
{
    match RoutineControlSubFunction::try_from(sub_function) {
        Ok(f) => flat(write_routine_response_message(f, identifier, record, room)),
        Err(e) => e.into(),
    }
}

// A negative answer to the service of this byte.
#[unsafe(no_mangle)]
pub extern "C" fn skr_write_negative(service: u8, code: u8, room: &mut [u8]) -> WrittenRecord
    ensures { WroteRecord (write_negative service code) room.old result room.new }
{
    flat(write_negative(service, code, room))
}
