// Routine requests: the sub-function with its "suppress" bit, the identifier, and the whole rest as the record.
ghost use Rattle.wire.specs.Writing.{Wrote};
ghost use Rattle.routine_control.specs.Request.{RoutineRequestRight, request_to_write};

use crate::routine_bytes::{routine_bytes_at, write_routine};
use crate::sub_function::{RoutineControlSubFunction, SuppressablePositiveResponse};
use wire::available::available_at;
use wire::place::Place;
use wire::refusal::Refusal;

// A routine request; its record is a place of the message. A type of its own beside the response's, as the original's is (docs/SWITCHING.md); what the two share is read in `routine_bytes`.
#[derive(Clone, Copy, Debug, PartialEq, Eq)]
pub struct RoutineControlRequest {
    pub suppress_positive_response: bool,
    pub sub_function: RoutineControlSubFunction,
    pub routine_id: u16,
    pub option_record: Place,
}

// Fewer than three bytes are refusal 1, before the sub-function is judged. The tail is always empty.
pub fn read_routine_request(s: &[u8]) -> Result<RoutineControlRequest, Refusal>
    ensures { RoutineRequestRight s.now result }
{
    let (bytes, next) = routine_bytes_at(s, 0)?;
    let control = SuppressablePositiveResponse::try_from(bytes.control)?;
    Ok(RoutineControlRequest {
        suppress_positive_response: control.suppress_positive_response,
        sub_function: control.value,
        routine_id: bytes.identifier,
        option_record: Place {
            start: next,
            len: available_at(s, next),
        },
    })
}

// A record over 65,535 bytes is refusal 2, too little room refusal 7; refused, nothing changes.
// The fields are handed over one by one, as `skr_write_routine_request` has them from C: a `RoutineControlRequest` holds a place, and no bytes.
pub fn write_routine_request(
    suppress_positive_response: bool,
    sub_function: RoutineControlSubFunction,
    routine_id: u16,
    option_record: &[u8],
    out: &mut [u8],
) -> Result<usize, Refusal>
    ensures { Wrote (request_to_write suppress_positive_response sub_function routine_id option_record.now) out.old result out.new }
{
    let control = SuppressablePositiveResponse {
        suppress_positive_response,
        value: sub_function,
    };
    write_routine(u8::from(control), routine_id, option_record, out)
}
