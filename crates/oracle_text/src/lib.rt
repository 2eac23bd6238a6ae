// What the replays of recorded answers share: numbers in the input of a call, the room that is lent to a call that writes, and the text of an answer.
#![tactic(auto)]

pub mod answer;
pub mod input;
pub mod room;
pub mod text;
