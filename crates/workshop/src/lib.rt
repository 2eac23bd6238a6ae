// The doors for C and for Rust to trouble-code listings and to codes as text, over flat records, with no logic of its own: each answers on every input.
// A sub-function comes in as a byte, since C hands it over, and one that does not exist is refused; the records are numbers and flags, since C reads them.
#![tactic(auto)]

pub mod changes;
pub mod listings;
pub mod texts;
