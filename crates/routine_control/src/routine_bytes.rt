// What requests and responses share: three bytes in front, which are the sub-function byte and the identifier in two bytes, high first, and the whole rest as the record.
ghost use Rattle.wire.specs.Writing.{Wrote};
ghost use Rattle.routine_control.specs.ThreeBytes.{RoutineBytesRight, routine_out};

use wire::available::available_at;
use wire::refusal::Refusal;
use wire::write::{put_byte, put_bytes, put_two};

#[derive(Clone, Copy, Debug, PartialEq, Eq)]
pub(crate) struct RoutineBytes {
    pub(crate) control: u8,
    pub(crate) identifier: u16,
}

// The three bytes and where the record begins. Fewer than three bytes from `at` on are refusal 1; no byte is judged here.
pub(crate) fn routine_bytes_at(s: &[u8], at: usize) -> Result<(RoutineBytes, usize), Refusal>
    ensures { RoutineBytesRight s.now at result }
{
    let available = available_at(s, at);
    if available < 3 {
        return Err(Refusal::TooShort {
            needed: 3,
            available,
        });
    }
    let bytes = RoutineBytes {
        control: s[at],
        identifier: u16::from_be_bytes([s[at + 1], s[at + 2]]),
    };
    Ok((bytes, at + 3))
}

// A record over 65,535 bytes is refusal 2, too little room refusal 7; refused, nothing changes.
pub(crate) fn write_routine(
    control: u8,
    identifier: u16,
    record: &[u8],
    out: &mut [u8],
) -> Result<usize, Refusal>
    ensures { Wrote (routine_out control identifier «record».now) out.old result out.new }
{
    if 65535 < record.len() {
        return Err(Refusal::WrongFormat { good: 0 });
    }
    let needed = 3 + record.len();
    let room = out.len();
    if room < needed {
        return Err(Refusal::NoRoom { needed, room });
    }
    // The room was checked first, so that a refused write changes nothing: now no field is refused, and the answers are dropped.
    let _ = put_byte(control, out);
    let _ = put_two(identifier, &mut out[1..]);
    let _ = put_bytes(record, &mut out[3..]);
    Ok(needed)
}
