// The name record: that very part of the caller's buffer, found to be a name, and nothing else.
// Each of its two makers always makes one. Whether there is a name says `name_place` beside `of_request`, and `try_from` beside `new`.
ghost use Rattle.std.specs.Prelude.{◌≡◌};
ghost use Rattle.paper.specs.Request.{good_name};
ghost use Rattle.file_operation.specs.Part.{part_said, Kept};
ghost use Rattle.request_file_transfer.specs.Name.{name_place, IsNameOf, HoldsGood};

use crate::name::good_name;
use crate::read::read_request;
use file_operation::part::{kept_after, or_empty};
use wire::place::{Place, part_at};
use wire::refusal::Refusal;

// Where the name of a request stands: from 3 on, empty or not. Of a request that is refused, for whatever reason, the refusal.
pub fn name_place(message: &[u8]) -> Result<Place, Refusal>
    ensures { part_said result ≡ name_place message.now }
{
    let (q, _) = read_request(message)?;
    Ok(q.file_path_and_name)
}

// A file's path and name, held where it stands: no byte of it is copied. It has a type of its own, as a block length has: docs/STATEMENTS.md names both,
// each has its own check, and what they share is `part_at` and `kept_after`.
#[derive(Clone, Copy)]
pub struct NamePayload<'a> {
    file_path_and_name: &'a [u8],
}

impl<'a> NamePayload<'a> {
    // Holds the name of a request; of a refused one the empty part at the buffer's start.
    pub fn of_request(message: &'a [u8]) -> NamePayload<'a>
        ensures { IsNameOf message.entry result.file_path_and_name }
    {
        NamePayload {
            file_path_and_name: request_name(message),
        }
    }

    // Holds the very slice that it is lent where that is a good name; else the empty part at its start.
    pub fn new(file_path_and_name: &'a [u8]) -> NamePayload<'a>
        ensures { Kept good_name file_path_and_name.entry result.file_path_and_name }
    {
        NamePayload {
            file_path_and_name: kept_after(good_name(file_path_and_name), file_path_and_name),
        }
    }

    // The slice that is held.
    pub fn file_path_and_name(self) -> &'a [u8]
        ensures { result ≡ self.entry.file_path_and_name }
    {
        self.file_path_and_name
    }

    // The same of a record that is only lent, as in the original.
    pub fn held(&self) -> &'a [u8]
        ensures { result ≡ self.now.file_path_and_name }
    {
        self.file_path_and_name
    }
}

// Holds the very slice that it is lent, or answers why it is no name.
impl<'a> TryFrom<&'a [u8]> for NamePayload<'a> {
    type Error = Refusal;

    ghost try_from_gives = { λ name r. HoldsGood name r };

    fn try_from(name: &'a [u8]) -> Result<NamePayload<'a>, Refusal> {
        good_name(name)?;
        Ok(NamePayload {
            file_path_and_name: name,
        })
    }
}

// The name of a request; of a refused one the empty part at the buffer's start.
pub fn request_name(message: &[u8]) -> &[u8]
    ensures { IsNameOf message.entry result }
{
    part_at(message, or_empty(name_place(message)))
}
