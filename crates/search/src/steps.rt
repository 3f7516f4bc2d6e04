ghost use Rattle.std.specs.Prelude.{◌≡◌, ◌<◌, ◌≤◌, [], ◌∷◌, ◌++◌, length, IfOk};
ghost use Rattle.matching.specs.Support.{support};
ghost use Rattle.matching.specs.Picks.{picked};
ghost use Rattle.trail.specs.Sound.{tapes_of};
ghost use Rattle.search.specs.Walks.{at, lexicon_of, Sound, support_of, SameRows, Unmoved, Fresh, Opened, Deeper, DeeperMeans, Back};

use crate::walk::Walk;
use bundle::tape::Tapes;
use event::kind::Kind;
use std::alloc::{AllocError, Global};
use trail::level::MOST_LENGTH;
use trail::trail::Trail;

impl<'a, K: Kind> Walk<'a, K> {
    /// Stands at the empty list, over no tapes and no lexicon. Any event will do to fill the room.
    pub fn fresh(blank: K, heap: Global) -> Result<Walk<'a, K>, AllocError>
        ensures { IfOk result (λ walk. Fresh K.Kind.order walk) }
    {
        let mut room = Vec::new(heap);
        // copied, and not cloned as vec! does: a clone may fail
        room.resize(MOST_LENGTH, blank)?;
        Ok(Walk {
            trail: Trail::open(
                Tapes {
                    events: &[],
                    offsets: &[0],
                },
                &[],
            ),
            room,
            longest: 0,
        })
    }

    /// Stands at the empty list, over these tapes and this lexicon. The caller has checked their sizes.
    pub fn open(&mut self, tapes: Tapes<'a, K>, lexicon: &'a [K], longest: usize)
        requires first { 1 ≤ length tapes.offsets.now }
        requires tapes { length tapes.offsets.now ≤ 513 }
        requires words { length lexicon.now ≤ 1024 }
        requires short { longest ≤ 16 }
        ensures opened { Opened tapes.entry lexicon.entry longest self.new }
        ensures sound { Sound K.Kind.order self.new }
    {
        self.trail = Trail::open(tapes, lexicon);
        self.longest = longest;
    }

    /// Goes deeper by a place of the lexicon, and returns the support of the longer list; where that is below what is needed, the walk stays where it stands.
    pub(crate) fn deeper(&mut self, place: u16, need: u32) -> Option<u32>
        requires short { length (at self.old) < self.old.longest }
        requires known { place < length (lexicon_of self.old) }
        ensures same { SameRows self.old self.new }
        ensures moved { Deeper (at self.old) place need result (at self.new) }
        ensures means { Sound K.Kind.order self.old → DeeperMeans (support_of K.Kind.order self.old) (at self.old) place need result }
        ensures sound { Sound K.Kind.order self.old → Sound K.Kind.order self.new }
    {
        let depth = self.trail.depth();
        let count = self.trail.deeper(place, need)?;
        self.room[depth] = self.trail.lexicon()[place as usize];
        Some(count)
    }

    /// Goes back by one place and returns that, unless the list is empty.
    pub(crate) fn back(&mut self) -> Option<u16>
        ensures same { SameRows self.old self.new }
        ensures moved { Back (at self.old) result (at self.new) }
        ensures sound { Sound K.Kind.order self.old → Sound K.Kind.order self.new }
    {
        let last = *self.trail.places().last()?;
        self.trail.back();
        Some(last)
    }

    /// The support of the list with any one event behind it, in the lexicon or not. The walk stays where it stands.
    pub fn try_event(&mut self, event: &K) -> u32
        ensures unmoved { Unmoved self.old self.new }
        ensures means { Sound K.Kind.order self.old → result ≡ support K.Kind.order (tapes_of self.old.trail) (picked (lexicon_of self.old) (at self.old) ++ (event.now ∷ [])) }
        ensures sound { Sound K.Kind.order self.old → Sound K.Kind.order self.new }
    {
        self.trail.try_event(event)
    }
}
