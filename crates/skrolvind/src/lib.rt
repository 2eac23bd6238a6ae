// Every door for C and for Rust, as the static library exports it: each calls the function of its name in the crate that has it, and promises the same.
// Nothing stands on this crate: it is the one that is linked. Its parameters are the bytes, halves and flags of the C interface, and a door hands all of them on: each symbol is a function of its own.
#![tactic(auto)]

mod batches;
mod changes;
mod joined;
mod listings;
mod messages;
mod read;
mod replays;
mod routine;
mod sheet;
mod texts;
mod transfer;
mod trouble;
mod why;
mod words;
mod write;
