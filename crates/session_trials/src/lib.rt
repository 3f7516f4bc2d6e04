// Tests of the session and of the lists by examples, in a crate of their own.
#![tactic(auto)]

#[cfg(test)]
mod answers;
#[cfg(test)]
mod listings;
#[cfg(test)]
mod replies;
#[cfg(test)]
mod sessions;
