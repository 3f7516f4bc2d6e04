ghost use Rattle.std.specs.Prelude.{◌≡◌, ◌+◌, ◌≤◌, length, IfSome};
ghost use Rattle.bundle.specs.Tapes.{all_tapes};
ghost use Rattle.trail.specs.Levels.{end, Kept};
ghost use Rattle.trail.specs.Trials.{next_level, reaching, behind, Laid};

use crate::level::{Head, Rows};
use crate::tapes::next_place;
use bundle::tape::Tapes;
use event::kind::Kind;

/// A trial has the head, which stands at the next level. However the trial ends, the head is put back, unless the trial is kept.
pub(crate) struct Trial<'t> {
    head: &'t mut Head,
    saved: Head,
}

impl Drop for Trial<'_> {
    fn drop(self)
        ensures { self.exit.0.now ≡ self.entry.saved }
    {
        *self.head = self.saved;
        let Trial { head: _, saved: _ } = self;
    }
}

impl<'t> Trial<'t> {
    /// Takes the head.
    pub(crate) fn new(head: &'t mut Head) -> Trial<'t>
        ensures same_head { result.head.ghost_name ≡ head.entry.ghost_name }
        ensures saved { result.saved ≡ head.old }
    {
        let saved = *head;
        Trial { head, saved }
    }

    /// Tries an event: lays the next level behind the head's and counts it, and ends as soon as the count cannot reach what is needed.
    pub(crate) fn run<K: Kind>(
        &mut self,
        rows: &mut Rows,
        tapes: Tapes<'_, K>,
        event: &K,
        need: u32,
    ) -> Option<u32>
        requires { end self.old.saved + self.old.saved.count ≤ 9216 }
        ensures same_head { self.new.head.ghost_name ≡ self.old.head.ghost_name }
        ensures saved { self.new.saved ≡ self.old.saved }
        ensures kept { Kept (end self.old.saved) rows.old rows.new }
        ensures answer { result ≡ reaching need (length (next_level K.Kind.order (all_tapes tapes.entry) event.now rows.old self.old.saved)) }
        ensures laid { Laid (next_level K.Kind.order (all_tapes tapes.entry) event.now rows.old self.old.saved) self.old.saved rows.new result }
        ensures moved { IfSome result (λ count. self.new.head.now ≡ behind self.old.saved count) }
    {
        let level = self.saved;
        let end = level.end();
        *self.head = Head {
            start: end,
            count: 0,
        };
        // by places of the rows: one level is read and the next is laid in the same two, and the places left say when to stop
        for at in level.start..end {
            if self.head.count + (end - at) < need as usize {
                return None;
            }
            let (tape, place) = rows.entry(at);
            let Some(next) = next_place(tapes, tape as usize, place as usize, event) else {
                continue;
            };
            rows.lay(self.head.end(), tape, next);
            self.head.count += 1;
        }
        let count = self.head.count as u32;
        (count >= need).then_some(count)
    }

    /// Leaves the head at the next level.
    pub(crate) fn keep(self)
        ensures { self.exit.0.now ≡ self.entry.head.now }
    {
        let Trial { head: _, saved: _ } = self;
    }
}
