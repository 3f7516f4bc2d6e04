ghost use Rattle.std.specs.Prelude.{◌≡◌, ℕ, ◌<◌, ◌≤◌, [], ◌∷◌, length, slice_index};
ghost use Rattle.matching.specs.Support.{support};
ghost use Rattle.trail.specs.Moves.{stands_at, Same, Unmoved, Deeper, Back, Opened};
ghost use Rattle.trail.specs.Sound.{tapes_of, list_of, support_with, Sound, DeeperMeans};

use crate::level::{Head, MOST_LENGTH, ROOM, Rows};
use crate::trail::Trail;
use crate::trial::Trial;
use bundle::tape::Tapes;
use event::kind::Kind;

impl<'a, K: Kind> Trail<'a, K> {
    /// Stands at the empty list, with every tape at its first place.
    pub fn open(tapes: Tapes<'a, K>, lexicon: &'a [K]) -> Trail<'a, K>
        requires some { 1 ≤ length tapes.offsets.now }
        requires few { length tapes.offsets.now ≤ 513 }
        ensures opened { Opened tapes.entry lexicon.entry result }
        ensures sound { Sound K.Kind.order result }
    {
        let count = tapes.count();
        let mut numbers = [0; ROOM];
        let roots = &mut numbers[..count];
        for (tape, root) in roots.iter_mut().enumerate() {
            *root = tape as u16;
        }
        let mut bounds = [0; MOST_LENGTH + 2];
        bounds[1] = count;
        Trail {
            tapes,
            lexicon,
            rows: Rows {
                tapes: numbers,
                places: [0; ROOM],
            },
            head: Head { start: 0, count },
            bounds,
            list: [0; MOST_LENGTH],
            depth: 0,
        }
    }

    /// Goes deeper by a place of the lexicon, and returns the support of the longer list. Where the list has the most events already, the place is not in the lexicon, or the support is below what is needed, the trail stays where it stands.
    pub fn deeper(&mut self, place: u16, need: u32) -> Option<u32>
        ensures same { Same self.old self.new }
        ensures moved { Deeper self.old place need result self.new }
        ensures means { Sound K.Kind.order self.old → DeeperMeans K.Kind.order self.old place need result }
        ensures sound { Sound K.Kind.order self.old → Sound K.Kind.order self.new }
    {
        if self.depth >= MOST_LENGTH {
            return None;
        }
        let event = self.lexicon.get(place as usize)?;
        let mut trial = Trial::new(&mut self.head);
        let count = trial.run(&mut self.rows, self.tapes, event, need)?;
        trial.keep();
        self.list[self.depth] = place;
        self.depth += 1;
        self.bounds[self.depth + 1] = self.head.end();
        Some(count)
    }

    /// Goes back by one place, unless the list is empty.
    pub fn back(&mut self) -> bool
        ensures same { Same self.old self.new }
        ensures moved { Back self.old result self.new }
        ensures sound { Sound K.Kind.order self.old → Sound K.Kind.order self.new }
    {
        if self.depth == 0 {
            return false;
        }
        self.depth -= 1;
        let start = self.bounds[self.depth];
        let end = self.bounds[self.depth + 1];
        self.head = Head {
            start,
            count: end - start,
        };
        true
    }

    /// The support of the list with any one event behind it, in the lexicon or not. The trail stays where it stands.
    pub fn try_event(&mut self, event: &K) -> u32
        ensures same { Same self.old self.new }
        ensures moved { Unmoved self.old self.new }
        ensures means { Sound K.Kind.order self.old → result ≡ support_with K.Kind.order self.old (event.now ∷ []) }
        ensures sound { Sound K.Kind.order self.old → Sound K.Kind.order self.new }
    {
        let mut trial = Trial::new(&mut self.head);
        let answer = trial.run(&mut self.rows, self.tapes, event, 0);
        answer.unwrap_or(0)
    }

    /// The support of the list.
    #[tactic(auto, using(crate::proofs::Sounding::counts_list))]
    pub fn support(&self) -> u32
        ensures count { result ≡ self.now.head.count }
        ensures means { Sound K.Kind.order self.now → result ≡ support K.Kind.order (tapes_of self.now) (list_of self.now) }
    {
        self.head.count as u32
    }

    /// The list, as places of the lexicon.
    pub fn places(&self) -> &[u16]
        ensures list { result.now ≡ stands_at self.now }
        ensures levels { length result.now ≡ self.now.depth }
        ensures known { (k : ℕ) → k < length result.now → slice_index result.now k < length self.now.lexicon.now }
    {
        &self.list[..self.depth]
    }

    /// How many events the list has.
    pub fn depth(&self) -> usize
        ensures levels { result ≡ self.now.depth }
        ensures list { result ≡ length (stands_at self.now) }
    {
        self.places().len()
    }

    /// The lexicon.
    pub fn lexicon(&self) -> &'a [K]
        ensures { result ≡ self.now.lexicon }
    {
        self.lexicon
    }
}
