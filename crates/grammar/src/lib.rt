// The reading of an expression from its marks: a table of nodes, or the mark that does not fit.
#![tactic(auto)]

pub mod mark;
pub mod read;
pub mod reader;
