// What the lister reports: the faults of all layers as one, and the lines that it writes.
#![tactic(auto)]

pub mod fault;
pub mod output;
pub mod text;
