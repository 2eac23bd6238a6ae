// File transfer requests, carried over from the original's src/services/request_file_transfer.rs.
#![tactic(auto)]

pub mod layout;
pub mod name;
pub mod name_payload;
pub mod read;
pub mod rewrite;
pub mod write;
