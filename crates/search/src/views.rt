ghost use Rattle.std.specs.Prelude.{◌≡◌, ℕ, ◌<◌, length, slice_index};
ghost use Rattle.matching.specs.Picks.{picked};
ghost use Rattle.search.specs.Walks.{at, lexicon_of};

use crate::walk::Walk;
use event::kind::Kind;

impl<'a, K: Kind> Walk<'a, K> {
    /// The events of the list.
    pub(crate) fn list(&self) -> &[K]
        ensures { result.now ≡ picked (lexicon_of self.now) (at self.now) }
    {
        &self.room[..self.trail.depth()]
    }

    /// The list, as places of the lexicon.
    pub fn places(&self) -> &[u16]
        ensures list { result.now ≡ at self.now }
        ensures known { (k : ℕ) → k < length result.now → slice_index result.now k < length (lexicon_of self.now) }
    {
        self.trail.places()
    }

    /// How many events the lexicon has.
    pub(crate) fn lexicon_length(&self) -> usize
        ensures { result ≡ length (lexicon_of self.now) }
    {
        self.trail.lexicon().len()
    }

    /// The longest length of a list.
    pub fn longest(&self) -> usize
        ensures { result ≡ self.now.longest }
    {
        self.longest
    }
}
