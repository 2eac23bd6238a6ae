// Routine messages.
ghost use Rattle.std.specs.Prelude.{◌≡◌};
ghost use Rattle.paper.specs.RoutineControl.{read_routine_request, read_routine_response};
ghost use Rattle.station.specs.Records.{routine_request_record, routine_response_record, WroteRecord};
ghost use Rattle.station.specs.Handed.{routine_request_handed, routine_response_handed};

use station::records::{RoutineRecord, WrittenRecord};

#[unsafe(no_mangle)]
pub extern "C" fn skr_read_routine_request(message: &[u8]) -> RoutineRecord
    ensures { result ≡ routine_request_record (read_routine_request message.now) }
{
    station::routine::skr_read_routine_request(message)
}

#[unsafe(no_mangle)]
pub extern "C" fn skr_read_routine_response(message: &[u8]) -> RoutineRecord
    ensures { result ≡ routine_response_record (read_routine_response message.now) }
{
    station::routine::skr_read_routine_response(message)
}

#[unsafe(no_mangle)]
pub extern "C" fn skr_write_routine_request(
    suppress: bool,
    sub_function: u8,
    identifier: u16,
    record: &[u8],
    room: &mut [u8],
) -> WrittenRecord
    ensures { WroteRecord (routine_request_handed suppress sub_function identifier «record».now) room.old result room.new }
{
    station::routine::skr_write_routine_request(suppress, sub_function, identifier, record, room)
}

#[unsafe(no_mangle)]
pub extern "C" fn skr_write_routine_response(
    sub_function: u8,
    identifier: u16,
    record: &[u8],
    room: &mut [u8],
) -> WrittenRecord
    ensures { WroteRecord (routine_response_handed sub_function identifier «record».now) room.old result room.new }
{
    station::routine::skr_write_routine_response(sub_function, identifier, record, room)
}
