use law::stage::Stage;
use search::walk::Walk;

/// A session over tapes that it borrows: how far its list has come, the threshold that stands, whether the latest pattern was skipped, and how many patterns were handed out since opening.
#[derive(Drop)]
pub struct Session<'a, K> {
    pub(crate) walk: Walk<'a, K>,
    pub(crate) stage: Stage,
    pub(crate) threshold: u32,
    pub(crate) skipped: bool,
    pub(crate) count: u32,
}
