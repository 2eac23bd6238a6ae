// The doors for C and for Rust to what document 01 asks, over flat records, with no logic of its own: file transfer and routine messages, the desk check, names and trouble codes.
// Each answers on every input. A kind or a sub-function that does not exist, which only C can hand over, is refused before anything else.
// Other crates have the other doors (tools/library names them); what they share with these is public here.
#![tactic(auto)]

pub mod records;
pub mod routine;
pub mod transfer;
pub mod trouble;
