// Parts of the message: a run of bytes after its count, handed back as a place, and the very part at a place.
ghost use Rattle.std.specs.Prelude.{◌≡◌};
ghost use Rattle.wire.specs.Prefix.{prefix_len};
ghost use Rattle.wire.specs.Place.{CountedRight, IsPart};

use crate::available::available_at;
use crate::group::head;
use crate::prefix::Prefix;
use crate::refusal::Refusal;

// A part of a message: where it begins and how many bytes it has.
// No slice: the doors hand it to C as two numbers, and in a whole message it is counted again, with the service byte before it.
#[derive(Clone, Copy, Debug, PartialEq, Eq)]
pub struct Place {
    pub start: usize,
    pub len: usize,
}

// A count in one or two bytes, and so many bytes after it: their place, and where the next field begins.
pub fn counted_at(prefix: Prefix, s: &[u8], at: usize) -> Result<(Place, usize), Refusal>
    ensures { CountedRight (prefix_len prefix) s.now at result }
{
    let available = available_at(s, at);
    let before = prefix.len();
    if available < before {
        return Err(Refusal::TooShort {
            needed: before,
            available,
        });
    }
    let len = head(prefix, s, at);
    let needed = before + len;
    if available < needed {
        return Err(Refusal::TooShort { needed, available });
    }
    let start = at + before;
    Ok((Place { start, len }, start + len))
}

// The very part of `s` at a place, as much of it as `s` has: no byte is copied.
pub fn part_at(s: &[u8], place: Place) -> &[u8]
    ensures { IsPart s.entry place.start place.len result }
{
    let start = place.start;
    let len = place.len;
    if start <= s.len() {
        if len <= s.len() - start {
            &s[start..start + len]
        } else {
            &s[start..]
        }
    } else {
        &s[s.len()..]
    }
}
