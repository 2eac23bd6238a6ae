// The block length record: that very part of the caller's buffer, found to be a block length, and nothing else.
// Each of its two makers always makes one. Whether there is a block length says `block_length_place` beside `of_response`, and `try_from` beside `new`.
ghost use Rattle.std.specs.Prelude.{◌≡◌};
ghost use Rattle.paper.specs.Response.{good_block_length};
ghost use Rattle.wire.specs.Writing.{told};
ghost use Rattle.file_operation.specs.Part.{part_said, Kept};
ghost use Rattle.file_operation.specs.Writing.{length_in};
ghost use Rattle.request_file_transfer_response.specs.BlockLength.{block_length_place, IsBlockLengthOf, HoldsGood};

use crate::read::read_response;
use file_operation::part::{kept_after, or_empty};
use wire::place::{Place, part_at};
use wire::refusal::Refusal;

// Where the block length of a response stands: from 2 on, empty or not. A DeleteFile response has none, and is answered with the empty place at 0, as it is read.
// Of a response that is refused, for whatever reason, the refusal.
pub fn block_length_place(message: &[u8]) -> Result<Place, Refusal>
    ensures { part_said result ≡ block_length_place message.now }
{
    let (q, _) = read_response(message)?;
    Ok(q.max_number_of_block_length)
}

// The check of a block length when writing: how many bytes it has, or refusal 2 where they are over 255.
pub fn good_block_length(block: &[u8]) -> Result<usize, Refusal>
    ensures { told result ≡ length_in (good_block_length block.now) }
{
    let len = block.len();
    if 255 < len {
        return Err(Refusal::WrongFormat { good: 0 });
    }
    Ok(len)
}

// A block length, held where it stands: no byte of it is copied. It has a type of its own, as a name has: docs/STATEMENTS.md names both,
// each has its own check, and what they share is `part_at` and `kept_after`.
#[derive(Clone, Copy)]
pub struct SentDataPayload<'a> {
    max_number_of_block_length: &'a [u8],
}

impl<'a> SentDataPayload<'a> {
    // Holds the block length of a response; of a refused one, and of one that has none, the empty part at the buffer's start.
    pub fn of_response(message: &'a [u8]) -> SentDataPayload<'a>
        ensures { IsBlockLengthOf message.entry result.max_number_of_block_length }
    {
        SentDataPayload {
            max_number_of_block_length: response_block_length(message),
        }
    }

    // Holds the very slice that it is lent where one byte can count it; else the empty part at its start.
    pub fn new(max_number_of_block_length: &'a [u8]) -> SentDataPayload<'a>
        ensures { Kept good_block_length max_number_of_block_length.entry result.max_number_of_block_length }
    {
        SentDataPayload {
            max_number_of_block_length: kept_after(
                good_block_length(max_number_of_block_length),
                max_number_of_block_length,
            ),
        }
    }

    // The slice that is held.
    pub fn max_number_of_block_length(self) -> &'a [u8]
        ensures { result ≡ self.entry.max_number_of_block_length }
    {
        self.max_number_of_block_length
    }

    // The same of a record that is only lent, as in the original.
    pub fn held(&self) -> &'a [u8]
        ensures { result ≡ self.now.max_number_of_block_length }
    {
        self.max_number_of_block_length
    }
}

// Holds the very slice that it is lent, or answers why it is no block length.
impl<'a> TryFrom<&'a [u8]> for SentDataPayload<'a> {
    type Error = Refusal;

    ghost try_from_gives = { λ block r. HoldsGood block r };

    fn try_from(block: &'a [u8]) -> Result<SentDataPayload<'a>, Refusal> {
        good_block_length(block)?;
        Ok(SentDataPayload {
            max_number_of_block_length: block,
        })
    }
}

// The block length of a response; of a refused one, and of one that has none, the empty part at the buffer's start.
pub fn response_block_length(message: &[u8]) -> &[u8]
    ensures { IsBlockLengthOf message.entry result }
{
    part_at(message, or_empty(block_length_place(message)))
}
