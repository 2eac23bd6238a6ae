// What a refusal means, in plain words: ASCII, at the start of lent room, with no zero byte behind them. The words are those of docs/REFUSALS.md.
#![tactic(auto)]

ghost use Rattle.std.specs.Prelude.{◌≡◌, MatchResult};
ghost use Rattle.paper.specs.Answer.{accepted, refused};
ghost use Rattle.wire.specs.Refusals.{row};
ghost use Rattle.wire.specs.Writing.{Wrote};
ghost use Rattle.station.specs.Records.{WroteRecord};
ghost use Rattle.refusal_words.specs.Words.{meaning};

use station::records::{WrittenRecord, flat};
use wire::refusal::Refusal;
use wire::write::put_bytes;

// The words of a number; 11 for a number that no refusal has.
#[tactic(auto, unfolding(crate::specs::Words::meaning, crate::specs::Words::among, paper::specs::Kind::one_of))]
fn words_for(number: u64) -> Result<&'static str, Refusal>
    ensures { MatchResult result (λ words. meaning number ≡ accepted words.now) (λ e. meaning number ≡ refused (row e)) }
{
    match number {
        0 => Ok("accepted"),
        1 => Ok("too short: a field has fewer bytes than it needs"),
        2 => Ok("wrong format: the name is not UTF-8, or something is too long"),
        3 => Ok("unknown mode: no file operation has this number"),
        4 => Ok("unknown routine sub-function: it is not start, stop or results"),
        5 => Ok("no trouble code: the number is above 0x00FFFFFF"),
        6 => Ok("bad width: a size is 1 to 16 bytes wide"),
        7 => Ok("no room: the room is smaller than what is to be written"),
        8 => Ok("unequal sizes: the sizes differ though the file is not packed"),
        9 => Ok("bytes left over: the message ends before its bytes do"),
        10 => Ok("cut: the last record is cut, or lengths do not add up"),
        11 => Ok(
            "out of range: a field is out of range or does not fit, or the index is another listing's",
        ),
        12 => Ok("too many: there are more records or messages than are taken"),
        13 => Ok("not allowed: this step cannot come here"),
        14 => Ok("wrong counter: a block has neither the next counter nor the last one"),
        15 => Ok("unknown service: this service byte, or these first bytes, are none that we have"),
        16 => Ok("no such code: no record has this code"),
        17 => Ok("repeated: a code stands twice in a listing"),
        18 => Ok("bad character: a character cannot stand where it does, or the text ends early"),
        _ => Err(Refusal::OutOfRange { place: 0 }),
    }
}

// The words of a number from 0, which is accepted, to 18; 11 for any other number, then 7. A refused call changes nothing. The longest words have 88 bytes.
// The number is that of the records that C has.
pub fn refusal_text(number: u64, room: &mut [u8]) -> Result<usize, Refusal>
    ensures { Wrote (meaning number) room.old result room.new }
{
    put_bytes(words_for(number)?.as_bytes(), room)
}

#[unsafe(no_mangle)]
pub extern "C" fn skr_refusal_text(number: u64, room: &mut [u8]) -> WrittenRecord
    ensures { WroteRecord (meaning number) room.old result room.new }
{
    flat(refusal_text(number, room))
}
