// The name: read with its length in two bytes and handed back as a place of the message, and judged when it is to be written.
// The reader is lent the whole message and told where the name begins, since its place counts from the message's start.
ghost use Rattle.std.specs.Prelude.{◌≡◌};
ghost use Rattle.paper.specs.Request.{good_name};
ghost use Rattle.wire.specs.Writing.{told};
ghost use Rattle.file_operation.specs.Writing.{length_in};
ghost use Rattle.request_file_transfer.specs.Name.{NameRight};

use utf8::{is_utf8, valid_up_to};
use wire::place::{Place, counted_at, part_at};
use wire::prefix::Prefix;
use wire::refusal::Refusal;

// All of its bytes must be there, and then they must be UTF-8: else refusal 2 carries the length of their longest beginning that is.
// That length is looked for only then, so that a good name is passed once.
pub fn name_at(s: &[u8], at: usize) -> Result<(Place, usize), Refusal>
    ensures { NameRight s.now at result }
{
    let (place, next) = counted_at(Prefix::Two, s, at)?;
    let name = part_at(s, place);
    if is_utf8(name) {
        return Ok((place, next));
    }
    let longest = valid_up_to(name);
    Err(Refusal::WrongFormat { good: longest })
}

// The checks of a name when writing: how many bytes it has, or refusal 2 where it is over 65,535 bytes, with 0, or not UTF-8, with the length of its longest
// beginning that is.
pub fn good_name(name: &[u8]) -> Result<usize, Refusal>
    ensures { told result ≡ length_in (good_name name.now) }
{
    if 65535 < name.len() {
        return Err(Refusal::WrongFormat { good: 0 });
    }
    if is_utf8(name) {
        return Ok(name.len());
    }
    let good = valid_up_to(name);
    Err(Refusal::WrongFormat { good })
}
