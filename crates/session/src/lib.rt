// The session: a list of patterns that is taken one by one, cut short and tightened while it is read.
#![tactic(auto)]

pub mod call;
pub mod calls;
pub mod opening;
pub mod places;
pub mod run;
pub mod sample;
pub mod session;
