ghost use Rattle.std.specs.Prelude.{◌≡◌, ◌≤◌, take};

use trail::level::MOST_LENGTH;

/// A list of lexicon places.
// A row of the longest length, with the list's length beside it: an answer needs no memory.
#[derive(Clone, Copy)]
pub struct Places {
    pub(crate) row: [u16; MOST_LENGTH],
    pub(crate) length: usize,
    ghost short: { length ≤ 16 },
}

impl Places {
    /// The places.
    pub fn list(&self) -> &[u16]
        ensures { result.now ≡ take self.now.length self.now.row }
    {
        &self.row[..self.length]
    }
}
