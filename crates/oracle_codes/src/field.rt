// The trouble-code fields of one byte, read and written: the letters i and j. Status, severity, group and record number are counted from 0.
ghost use Rattle.io.specs.Counts.{IsPrefixLen};

use dtc::status::{
    DtcSeverityMask, DtcStatusMask, DtcStoredDataRecordNumber, FunctionalGroupIdentifier,
};
use oracle_text::answer::{put_refused, put_written};
use oracle_text::input::two_at;
use oracle_text::room::full_room;
use oracle_text::text::{put_hex, put_numbers};
use wire::refusal::Refusal;

// The field that a byte of an input names.
#[derive(Clone, Copy, Debug, PartialEq, Eq)]
enum Field {
    Status,
    Severity,
    Group,
    RecordNumber,
}

// Of another number than these four there is none, and WrongFormat stands in.
impl TryFrom<u8> for Field {
    type Error = Refusal;

    fn try_from(b: u8) -> Result<Field, Refusal> {
        match b {
            0 => Ok(Field::Status),
            1 => Ok(Field::Severity),
            2 => Ok(Field::Group),
            3 => Ok(Field::RecordNumber),
            _ => Err(Refusal::WrongFormat { good: 0 }),
        }
    }
}

impl Field {
    // The byte at the place of the message, and where the next field begins.
    fn decode(self, s: &[u8], place: usize) -> Result<(u8, usize), Refusal> {
        match self {
            Field::Status => DtcStatusMask::decode(s, place).map(|(mask, next)| (
                mask.bits(),
                next,
            )),
            Field::Severity => {
                DtcSeverityMask::decode(s, place).map(|(mask, next)| (mask.bits(), next))
            }
            Field::Group => {
                FunctionalGroupIdentifier::decode(s, place).map(|(group, next)| (
                    group.value(),
                    next,
                ))
            }
            Field::RecordNumber => {
                DtcStoredDataRecordNumber::decode(s, place).map(|(n, next)| (n.value(), next))
            }
        }
    }

    // The field that is made of a byte.
    fn encode(self, b: u8, room: &mut [u8]) -> Result<usize, Refusal> {
        match self {
            Field::Status => DtcStatusMask::from_bits(b).encode(room),
            Field::Severity => DtcSeverityMask::from_bits(b).encode(room),
            Field::Group => FunctionalGroupIdentifier::from_byte(b).encode(room),
            Field::RecordNumber => DtcStoredDataRecordNumber::new(b).encode(room),
        }
    }
}

// The byte and where the next field begins, or the refusal.
fn put_read(read: Result<(u8, usize), Refusal>, out: &mut [u8], at: usize) -> usize
    ensures { IsPrefixLen result out.new }
{
    match read {
        Ok((b, next)) => put_numbers(&[0, 0, 0, u64::from(b), next as u64], out, at),
        Err(e) => put_refused(e, 2, out, at),
    }
}

// The field that the first byte names, at the place of the rest that the second says.
pub(crate) fn put_field(input: &[u8], out: &mut [u8], at: usize) -> usize
    ensures { IsPrefixLen result out.new }
{
    if input.len() < 2 {
        return 0;
    }
    let Ok(field) = Field::try_from(input[0]) else {
        return 0;
    };
    put_read(field.decode(&input[2..], usize::from(input[1])), out, at)
}

fn encode(field: u8, b: u8, room: &mut [u8]) -> Result<usize, Refusal> {
    Field::try_from(field)?.encode(b, room)
}

fn put_in_room(field: u8, b: u8, room: &mut [u8], out: &mut [u8], at: usize) -> usize
    ensures { IsPrefixLen result out.new }
{
    let end = put_written(encode(field, b, room), out, at);
    put_hex(room, out, end)
}

// The field that the third byte names, made of the fourth, in a room of the length that the first two say.
pub(crate) fn put_field_encoded(input: &[u8], out: &mut [u8], at: usize) -> usize
    ensures { IsPrefixLen result out.new }
{
    if input.len() != 4 {
        return 0;
    }
    let mut room = full_room();
    let n = io::count(two_at(input, 0) as isize, &room);
    put_in_room(input[2], input[3], &mut room[..n], out, at)
}
