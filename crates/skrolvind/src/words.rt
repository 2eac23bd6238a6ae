// What a refusal means, in plain words: ASCII, at the start of lent room, with no zero byte behind them. The words are those of docs/REFUSALS.md.
ghost use Rattle.station.specs.Records.{WroteRecord};
ghost use Rattle.refusal_words.specs.Words.{meaning};

use station::records::WrittenRecord;

#[unsafe(no_mangle)]
pub extern "C" fn skr_refusal_text(number: u64, room: &mut [u8]) -> WrittenRecord
    ensures { WroteRecord (meaning number) room.old result room.new }
{
    refusal_words::skr_refusal_text(number, room)
}
