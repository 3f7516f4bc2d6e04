// Filters: which lists of events are wanted, and which lists have no wanted extension.
#![tactic(auto)]

pub mod alike;
pub mod all;
pub mod both;
pub mod filter;
pub mod holds;
pub mod lacks;
pub mod length;
