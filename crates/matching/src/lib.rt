// Matching: when a tape includes a pattern, how many tapes do, and the lexicon of a bundle.
#![tactic(auto)]

pub mod inclusion;
pub mod learning;
pub mod lexicon;
pub mod rows;
pub mod support;
