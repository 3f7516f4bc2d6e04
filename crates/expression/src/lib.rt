// Expressions: a text, cut into marks and read as a filter.
#![tactic(auto)]

pub mod cut;
pub mod fault;
pub mod mark;
pub mod matches;
pub mod read;
mod text;
