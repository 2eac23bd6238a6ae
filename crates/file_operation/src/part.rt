// Where in a whole message its name or its block length stands. A refused message hands out neither.
ghost use Rattle.std.specs.Prelude.{◌≡◌};
ghost use Rattle.file_operation.specs.Part.{part_said, or_empty, KeptAfter};

use wire::place::Place;
use wire::refusal::Refusal;

// The place, which can be empty; of a refusal the empty one at the start of the message.
pub fn or_empty(part: Result<Place, Refusal>) -> Place
    ensures { result ≡ or_empty (part_said part) }
{
    part.unwrap_or(Place { start: 0, len: 0 })
}

// The very bytes where their check answered their number; else the empty part at their start.
pub fn kept_after(checked: Result<usize, Refusal>, bytes: &[u8]) -> &[u8]
    ensures { KeptAfter checked bytes.entry result }
{
    match checked {
        Ok(_) => bytes,
        Err(_) => &bytes[..0],
    }
}
