// The query line, which stands before the bundle in the lister's input.
#![tactic(auto)]

pub mod line;
