// Codes as the workshop writes them, in eight characters, and listings as text, one line to a code. Document 02 asks for them; the original has none.
#![tactic(auto)]

pub mod character;
pub mod code;
pub mod lines;
mod place;
