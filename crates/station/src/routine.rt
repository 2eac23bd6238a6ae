// Routine messages.
ghost use Rattle.std.specs.Prelude.{◌≡◌};
ghost use Rattle.paper.specs.RoutineControl.{read_routine_request, read_routine_response};
ghost use Rattle.station.specs.Records.{routine_request_record, routine_response_record, WroteRecord};
ghost use Rattle.station.specs.Flat.{accepted_routine, accepted_routine_request, accepted_routine_response};
ghost use Rattle.station.specs.Handed.{routine_request_handed, routine_response_handed};

use crate::records::{RoutineRecord, WrittenRecord, flat};
use routine_control::request::{
    RoutineControlRequest, read_routine_request, write_routine_request,
};
use routine_control::response::{
    RoutineControlResponse, read_routine_response, write_routine_response,
};
use routine_control::sub_function::RoutineControlSubFunction;
use wire::place::Place;

// What a request and a response have in common, and whether to suppress, which a response never says.
fn accepted_message(
    suppress: bool,
    sub_function: RoutineControlSubFunction,
    identifier: u16,
    place: Place,
) -> RoutineRecord
    ensures { result ≡ accepted_routine suppress sub_function identifier place }
{
    RoutineRecord {
        suppress: u64::from(suppress),
        sub_function: u64::from(u8::from(sub_function)),
        identifier: u64::from(identifier),
        start: place.start as u64,
        len: place.len as u64,
        ..RoutineRecord::default()
    }
}

// The record of a request that was read.
impl From<RoutineControlRequest> for RoutineRecord {
    ghost from_gives = { λ q r. r ≡ accepted_routine_request q };

    fn from(q: RoutineControlRequest) -> RoutineRecord {
        accepted_message(
            q.suppress_positive_response,
            q.sub_function,
            q.routine_id,
            q.option_record,
        )
    }
}

#[unsafe(no_mangle)]
pub extern "C" fn skr_read_routine_request(message: &[u8]) -> RoutineRecord
    ensures { result ≡ routine_request_record (read_routine_request message.now) }
{
    flat(read_routine_request(message))
}

// The record of a response that was read.
impl From<RoutineControlResponse> for RoutineRecord {
    ghost from_gives = { λ q r. r ≡ accepted_routine_response q };

    fn from(q: RoutineControlResponse) -> RoutineRecord {
        accepted_message(false, q.sub_function, q.routine_id, q.status_record)
    }
}

#[unsafe(no_mangle)]
pub extern "C" fn skr_read_routine_response(message: &[u8]) -> RoutineRecord
    ensures { result ≡ routine_response_record (read_routine_response message.now) }
{
    flat(read_routine_response(message))
}

#[unsafe(no_mangle)]
pub extern "C" fn skr_write_routine_request(
    suppress: bool,
    sub_function: u8,
    identifier: u16,
    record: &[u8],
    room: &mut [u8],
) -> WrittenRecord
    ensures { WroteRecord (routine_request_handed suppress sub_function identifier «record».now) room.old result room.new }
{
    match RoutineControlSubFunction::try_from(sub_function) {
        Ok(f) => flat(write_routine_request(suppress, f, identifier, record, room)),
        Err(e) => e.into(),
    }
}

#[unsafe(no_mangle)]
pub extern "C" fn skr_write_routine_response(
    sub_function: u8,
    identifier: u16,
    record: &[u8],
    room: &mut [u8],
) -> WrittenRecord
    ensures { WroteRecord (routine_response_handed sub_function identifier «record».now) room.old result room.new }
{
    match RoutineControlSubFunction::try_from(sub_function) {
        Ok(f) => flat(write_routine_response(f, identifier, record, room)),
        Err(e) => e.into(),
    }
}
