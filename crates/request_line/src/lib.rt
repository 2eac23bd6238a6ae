// The one line that the reading program prints of a message, and its text.
#![tactic(auto)]

pub mod line;
pub mod text;
