// Whole messages off the adapter: a service byte, and then a message of document 01 or a negative answer. Read and written.
#![tactic(auto)]

pub mod negative;
pub mod read;
pub mod service;
pub mod write;
