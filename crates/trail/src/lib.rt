// The trail: the tapes that include a list, and the place behind it in each, level by level.
#![tactic(auto)]

pub mod level;
pub mod moves;
pub mod projection;
pub mod sample;
pub mod tapes;
pub mod trail;
pub mod trial;
