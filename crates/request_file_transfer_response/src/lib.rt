// File transfer responses, carried over from the original's src/services/request_file_transfer.rs.
#![tactic(auto)]

pub mod layout;
pub mod read;
pub mod rewrite;
pub mod sent_data;
pub mod write;
