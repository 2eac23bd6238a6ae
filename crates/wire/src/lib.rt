// What messages are made of. A field is read at a place of the message, and its answer says where the next one begins;
// a field is written at the start of the room that is lent for it. Every call is total: what it cannot do it refuses.
// The message and the place go to a reader side by side: the place moves with each field and the message stays, so a pair of them would be made anew for every call.
#![tactic(auto)]

pub mod available;
pub mod group;
pub mod number;
pub mod place;
pub mod prefix;
pub mod refusal;
pub mod size;
pub mod write;
