// What both sorts of file transfer message share, carried over from the original's src/services/request_file_transfer.rs:
// the kinds, the payloads that are plain values, the answer about a part of a message, and that of a rewriting call.
#![tactic(auto)]

pub mod mode;
pub mod part;
pub mod payload;
pub mod rewrite;
