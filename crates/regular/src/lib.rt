// Regular expressions over events: their languages, as tables of nodes and as automata.
#![tactic(auto)]

pub mod automaton;
pub mod expression;
pub mod label;
pub mod language;
pub mod node;
pub mod reading;
mod set;
pub mod table;
