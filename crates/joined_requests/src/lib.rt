// Requests that were joined without lengths, taken apart again: the archive's buffer gives back the list of their lengths.
#![tactic(auto)]

ghost use Rattle.std.specs.Prelude.{◌≡◌, ◌≤◌, length, drop};
ghost use Rattle.paper.specs.Answer.{over};
ghost use Rattle.paper.specs.Joined.{pieces_of};
ghost use Rattle.joined_requests.specs.Split.{PieceRight, Counted, Fits, Split};

use request_file_transfer::read::read_request;
use wire::refusal::Refusal;

const MOST_PIECES: usize = 4096;

// Why a buffer is not taken apart, and how many pieces were found before that.
#[derive(Clone, Copy, Debug, PartialEq, Eq)]
pub struct SplitError {
    pub refusal: Refusal,
    pub found: usize,
}

// How long the piece is that begins here: where its tail begins, counted from its own start, it ends.
// `at` is a place of the whole buffer, as in the laws of its pieces (`Walk`).
fn piece_at(buffer: &[u8], at: usize) -> Result<usize, Refusal>
    requires { at ≤ length buffer.now }
    ensures { PieceRight (drop at buffer.now) result }
{
    let (_, tail) = read_request(&buffer[at..])?;
    Ok(tail)
}

// The first pass: how many pieces there are, or the refusal that ends it. 12 where bytes follow 4,096 pieces, whatever they are.
fn count_pieces(buffer: &[u8]) -> Result<usize, SplitError>
    ensures { Counted buffer.now result }
{
    let mut at = 0;
    for found in 0..MOST_PIECES {
        if at == buffer.len() {
            return Ok(found);
        }
        match piece_at(buffer, at) {
            Ok(length) => at += length,
            Err(refusal) => return Err(SplitError { refusal, found }),
        }
    }
    if at < buffer.len() {
        return Err(SplitError {
            refusal: Refusal::TooMany,
            found: MOST_PIECES,
        });
    }
    Ok(MOST_PIECES)
}

// The second pass, over a buffer whose pieces are all good, so many, and a list that holds their lengths.
fn fill(buffer: &[u8], count: usize, lengths: &mut [u32])
    requires fits { Fits buffer.now lengths.old }
    requires all { count ≡ length (pieces_of buffer.now).lengths }
    ensures { lengths.new ≡ over (pieces_of buffer.now).lengths lengths.old }
{
    let mut start = 0;
    for i in 0..count {
        let length = piece_at(buffer, start).unwrap();
        lengths[i] = length as u32;
        start += length;
    }
}

// Fills the list from its start with the length of each request of the buffer, as it stands there, and answers how many there are; entries beyond that stay as before.
// Refused, the list is untouched: with the reader's refusal of the first piece that is none, whose place is the number beside it; with 12 where bytes follow 4,096
// pieces; and last with 7 where the list is too short. An empty buffer has no piece.
pub fn split_joined(buffer: &[u8], lengths: &mut [u32]) -> Result<usize, SplitError>
    ensures { Split buffer.now lengths.old result lengths.new }
{
    let count = count_pieces(buffer)?;
    let room = lengths.len();
    if room < count {
        return Err(SplitError {
            refusal: Refusal::NoRoom {
                needed: count,
                room,
            },
            found: count,
        });
    }
    fill(buffer, count, lengths);
    Ok(count)
}
