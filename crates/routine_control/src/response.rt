// Routine responses: the sub-function, the identifier, and the whole rest as the record.
ghost use Rattle.wire.specs.Writing.{Wrote};
ghost use Rattle.routine_control.specs.Response.{RoutineResponseRight, response_to_write};

use crate::routine_bytes::{routine_bytes_at, write_routine};
use crate::sub_function::RoutineControlSubFunction;
use wire::available::available_at;
use wire::place::Place;
use wire::refusal::Refusal;

// A routine response; its record is a place of the message.
#[derive(Clone, Copy, Debug, PartialEq, Eq)]
pub struct RoutineControlResponse {
    pub sub_function: RoutineControlSubFunction,
    pub routine_id: u16,
    pub status_record: Place,
}

// Fewer than three bytes are refusal 1; then the whole first byte is judged. The tail is always empty.
pub fn read_routine_response(s: &[u8]) -> Result<RoutineControlResponse, Refusal>
    ensures { RoutineResponseRight s.now result }
{
    let (bytes, next) = routine_bytes_at(s, 0)?;
    let sub_function = RoutineControlSubFunction::try_from(bytes.control)?;
    Ok(RoutineControlResponse {
        sub_function,
        routine_id: bytes.identifier,
        status_record: Place {
            start: next,
            len: available_at(s, next),
        },
    })
}

// A record over 65,535 bytes is refusal 2, too little room refusal 7; refused, nothing changes.
pub fn write_routine_response(
    sub_function: RoutineControlSubFunction,
    routine_id: u16,
    status_record: &[u8],
    out: &mut [u8],
) -> Result<usize, Refusal>
    ensures { Wrote (response_to_write sub_function routine_id status_record.now) out.old result out.new }
{
    write_routine(u8::from(sub_function), routine_id, status_record, out)
}
