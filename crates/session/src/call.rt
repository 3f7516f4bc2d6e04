use crate::opening::Opening;
use crate::places::Places;

/// A call to a session: an opening, a next with a row of so many places, a skip, a raise to a threshold, a probe with an event, a tell.
#[derive(Drop)]
pub enum Call<'a, K> {
    Open(Opening<'a, K>),
    Next(usize),
    Skip,
    Raise(u32),
    Probe(&'a K),
    Tell,
}

/// What a session gives where it accepts a call: no more than that to an opening, a skip or a raise; a pattern and its support; END; a support; the threshold that stands and the count of patterns.
#[derive(Clone, Copy)]
pub enum Given {
    Accepted,
    Pattern(Places, u32),
    End,
    Support(u32),
    Told(u32, u32),
}
