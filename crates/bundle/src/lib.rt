// The bundle file: the tapes of one kind of event, in bytes.
#![tactic(auto)]

pub mod fault;
pub mod number;
pub mod offsets;
pub mod reader;
pub mod tape;
