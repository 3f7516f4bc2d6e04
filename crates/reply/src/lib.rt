// The answer to an input: the query line and the bundle read, and what is listed of them.
#![tactic(auto)]

pub mod answer;
pub mod contents;
pub mod input;
mod reading;
pub mod rows;
