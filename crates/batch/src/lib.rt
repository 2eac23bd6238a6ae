// A morning's messages in one call: a buffer of requests, one after the other, and a list of their lengths. Document 02 asks for it; the original has none.
#![tactic(auto)]

ghost use Rattle.std.specs.Prelude.{◌≡◌, ◌≤◌, length};
ghost use Rattle.paper.specs.Tally.{sum};
ghost use Rattle.paper.specs.Batch.{number_of, batch_numbers};
ghost use Rattle.wire.specs.Writing.{Wrote};

use request_file_transfer::read::read_request;
use wire::refusal::Refusal;

// The refusal number of reading one request, 0 where it is accepted. What is left over is no refusal.
// A number, and no `Result`: the list of them is lent as bytes, which C reads, and a batch is a writer of those (`Wrote`).
fn number_of(message: &[u8]) -> u8
    ensures { result ≡ number_of message.now }
{
    match read_request(message) {
        Ok(_) => 0,
        Err(refusal) => refusal.number() as u8,
    }
}

// What the lengths add up to. So few of them are exact in 64 bits.
fn add_up(lengths: &[u32]) -> usize
    requires { length lengths.now ≤ 4096 }
    ensures { result ≡ sum lengths.now }
{
    let mut total = 0;
    for length in lengths {
        total += *length as usize;
    }
    total
}

// Fills the list with the refusal number of each message: 12 for more than 4,096, then 10 where the lengths don't add up to the buffer exactly, then 7 where the list
// has fewer entries than there are messages. Refused, the list is untouched; else entries beyond the count stay as before.
pub fn read_batch(buffer: &[u8], lengths: &[u32], list: &mut [u8]) -> Result<usize, Refusal>
    ensures { Wrote (batch_numbers buffer.now lengths.now) list.old result list.new }
{
    let needed = lengths.len();
    if 4096 < needed {
        return Err(Refusal::TooMany);
    }
    let total = add_up(lengths);
    let room = list.len();
    if total != buffer.len() {
        return Err(Refusal::Cut);
    }
    if room < needed {
        return Err(Refusal::NoRoom { needed, room });
    }
    let mut at = 0;
    for (k, length) in lengths.iter().enumerate() {
        let end = at + *length as usize;
        list[k] = number_of(&buffer[at..end]);
        at = end;
    }
    Ok(needed)
}
