// Routine requests and responses, carried over from the original's src/services/routine_control.rs.
#![tactic(auto)]

pub mod nack;
pub mod request;
pub mod response;
mod routine_bytes;
pub mod sub_function;
