// Trouble-code fields, carried over from the original's src/dtc/status.rs.
#![tactic(auto)]

pub mod status;
