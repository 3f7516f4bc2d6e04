// What the lister will list: all patterns of a bundle whose support reaches the threshold.
#![tactic(auto)]

pub mod list;
mod patterns;
