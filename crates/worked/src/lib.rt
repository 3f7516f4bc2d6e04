// The worked cases: supports and lists of small bundles, as the definitions give them.
#![tactic(auto)]

pub mod cases;
