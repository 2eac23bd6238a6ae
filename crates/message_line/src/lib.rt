// What the program `read_message` prints of a whole message, down to its text.
#![tactic(auto)]

pub mod text;
mod transfer;
