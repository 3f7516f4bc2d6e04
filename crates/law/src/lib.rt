// The law: the order of patterns, what is said to a session and answered, and what its list keeps.
#![tactic(auto)]

pub mod law;
pub mod stage;
