// Events: the kinds of event behind one trait, their order, bytes and labels, and the refusals.
#![tactic(auto)]

pub mod decimal;
pub mod kind;
pub mod order;
pub mod refusal;
pub mod scanner;
pub mod span;
pub mod station;
