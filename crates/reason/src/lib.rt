// Why a file transfer message is refused: the first check of document 01 that fails, told by the readers' own steps.
#![tactic(auto)]

pub mod reason;
pub mod request;
pub mod response;
pub mod step;
