// The search for the next pattern: a walk over the lists of an opening, in their order.
#![tactic(auto)]

pub mod search;
pub mod steps;
pub mod turn;
pub mod views;
pub mod walk;
