// The doors for C and for Rust to recorded loads and to joined or whole messages, over flat records, with no logic of its own.
// Each answers on every input. After a refusal every other field is 0, but for the state of a recorded transfer, for the field and the offset of a reason, and for the count of a joined buffer.
// The records are numbers and flags in a fixed layout, since C reads them; beside the buffers the parameters are numbers and flags, too, since C hands them over.
// A kind, a sub-function or a service that does not exist is refused.
#![tactic(auto)]

pub mod batches;
pub mod joined;
pub mod messages;
pub mod replays;
pub mod sheet;
pub mod why;
