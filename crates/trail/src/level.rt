ghost use Rattle.std.specs.Prelude.{◌≡◌, ◌^◌, ◌<◌};
ghost use Rattle.trail.specs.Levels.{end, entry_at, Kept};

use bundle::reader::MOST_TAPES;

/// The most events of a list.
pub const MOST_LENGTH: usize = 16;

/// The room for entries: a level for each list from no event to the most, and one more for a trial.
pub const ROOM: usize = (MOST_LENGTH + 2) * MOST_TAPES;

/// A level's head: where its entries begin in the rows, and how many there are.
#[derive(Clone, Copy)]
pub struct Head {
    pub(crate) start: usize,
    pub(crate) count: usize,
}

impl Head {
    /// Where the level ends.
    pub(crate) fn end(self) -> usize
        requires { end self < 2 ^ 64 }
        ensures { result ≡ end self }
    {
        self.start + self.count
    }
}

/// The entries of the levels, one level behind the other: a tape's number, and a place in the tape.
// Two rows and not one of pairs: the form of the trail is two rows of numbers.
#[derive(Drop)]
pub struct Rows {
    pub(crate) tapes: [u16; ROOM],
    pub(crate) places: [u32; ROOM],
}

impl Rows {
    /// The entry at a place of the rows.
    pub(crate) fn entry(&self, at: usize) -> (u16, u32)
        requires { at < ROOM }
        ensures { result ≡ entry_at self.now at }
    {
        (self.tapes[at], self.places[at])
    }

    /// Lays an entry at a place of the rows. What is before it stays.
    pub(crate) fn lay(&mut self, at: usize, tape: u16, place: u32)
        requires { at < ROOM }
        ensures laid { entry_at self.new at ≡ (tape, place) }
        ensures kept { Kept at self.old self.new }
    {
        self.tapes[at] = tape;
        self.places[at] = place;
    }
}
