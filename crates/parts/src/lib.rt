// The doors for C and for Rust to the parts of file transfer messages, over flat records, with no logic of its own: the name, the block length, the three groups of sizes and the position.
// A part is read from the start of a buffer, whatever follows it, and written at the start of a room. Each door answers on every input.
#![tactic(auto)]

pub mod read;
pub mod records;
pub mod write;
