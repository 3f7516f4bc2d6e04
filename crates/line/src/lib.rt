// Lines of text, written piece by piece at a row's front.
#![tactic(auto)]

pub mod piece;
pub mod put;
pub mod writer;
