// A code in eight characters, written and read: P, C, B or U, a digit 0 to 3, three hex digits, a dash, two hex digits.
ghost use Rattle.std.specs.Prelude.{◌≡◌, ◌+◌, ◌*◌, ◌<◌, drop};
ghost use Rattle.paper.specs.Answer.{accepted};
ghost use Rattle.paper.specs.CodeText.{code_text, digit, code_in, read_code_text};
ghost use Rattle.wire.specs.Writing.{Wrote};
ghost use Rattle.dtc.specs.Status.{code_of};
ghost use Rattle.code_text.specs.CodeText.{LineStands, code_said};

use crate::character::{character, value};
use crate::place::{Sort, first_wrong};
use dtc::status::DtcRecord;
use wire::refusal::Refusal;
use wire::write::put_bytes;

// The eight characters of a code.
pub(crate) fn characters(code: DtcRecord) -> [u8; 8]
    ensures { result ≡ code_text (code_of code) }
{
    let high = code.high_byte();
    let middle = code.middle_byte();
    let low = code.low_byte();
    [
        character(0, high / 64),
        character(1, high / 16 % 4),
        character(2, high % 16),
        character(3, middle / 16),
        character(4, middle % 16),
        b'-',
        character(6, low / 16),
        character(7, low % 16),
    ]
}

// A code as the workshop writes it.
pub fn put_code_text(code: DtcRecord, out: &mut [u8]) -> Result<usize, Refusal>
    ensures { Wrote (accepted (code_text (code_of code))) out.old result out.new }
{
    put_bytes(&characters(code), out)
}

// The number that character j of the line at `at` stands for: it stands there, so that the 0 is never taken, and no branch of its own.
pub(crate) fn digit(text: &[u8], at: usize, j: usize) -> u8
    requires { LineStands (j + 1) at text.now }
    ensures value { result ≡ digit (drop at text.now) j }
    ensures few { result < 16 }
    ensures fewer { j < 2 → result < 4 }
{
    value(j, text[at + j]).unwrap_or(0) as u8
}

// The code whose eight characters stand there.
pub(crate) fn code_at(text: &[u8], at: usize) -> DtcRecord
    requires { LineStands 8 at text.now }
    ensures { code_of result ≡ code_in (drop at text.now) }
{
    DtcRecord::new(
        digit(text, at, 0) * 64 + digit(text, at, 1) * 16 + digit(text, at, 2),
        digit(text, at, 3) * 16 + digit(text, at, 4),
        digit(text, at, 6) * 16 + digit(text, at, 7),
    )
}

// The code that a text is. It takes exactly these eight characters, capitals only: else 18 with the place of the first that can't stand there, the end of the text counting as its length.
pub fn read_code_text(text: &[u8]) -> Result<DtcRecord, Refusal>
    ensures { code_said result ≡ read_code_text text.now }
{
    match first_wrong(Sort::OneCode, text) {
        Some(place) => Err(Refusal::BadCharacter { place }),
        None => Ok(code_at(text, 0)),
    }
}
