ghost use Rattle.std.specs.Prelude.{◌≡◌, ◌≤◌, [], ◌∷◌, ◌++◌, length, drop, IfOk};
ghost use Rattle.law.specs.Openings.{opening_refusal};
ghost use Rattle.law.specs.Rules.{may_raise, stage_refusal};
ghost use Rattle.law.specs.Transcripts as law;
ghost use Rattle.law.specs.declared.stage.Ask.TheVariants as asks;
ghost use Rattle.matching.specs.Checks.{or_refused};
ghost use Rattle.matching.specs.Support.{support};
ghost use Rattle.matching.specs.Picks.{picked};
ghost use Rattle.trail.specs.Sound.{tapes_of};
ghost use Rattle.search.specs.Walks.{at, lexicon_of, Sound};
ghost use Rattle.session.specs.Sessions.{opening_of, Stands, Extends};
ghost use Rattle.session.specs.Calls.{refusal_in, Leaves, next_refusal, raise_refusal, OpenedBy, MarkedLatest, RaisedTo, Probed, AfterNext, NextMeans, row_after, says_done, says_next, says_support, says_told};

use crate::opening::{MOST_THRESHOLD, Opening, check_opening, is_within};
use crate::session::Session;
use event::kind::Kind;
use event::refusal::Refusal;
use filter::filter::Filter;
use law::stage::{Ask, Stage};
use search::walk::Walk;
use std::alloc::{AllocError, Global};

// What a call may do depends on the stage and the call together.
fn hear(stage: Stage, call: Ask) -> Result<(), Refusal>
    ensures { result ≡ or_refused (stage_refusal stage call) tt }
{
    match (stage, call) {
        (_, Ask::Open) => Ok(()),
        (Stage::Made, _) => Err(Refusal::Closed),
        (Stage::Opened | Stage::Ended, Ask::Skip) => Err(Refusal::Nothing),
        (Stage::Ended, Ask::Probe) => Err(Refusal::Nothing),
        (Stage::Opened | Stage::Listing | Stage::Ended, _) => Ok(()),
    }
}

// Whether the threshold may be raised from one number to another.
fn may_raise(from: u32, to: u32) -> bool
    ensures { result ≡ may_raise from to }
{
    is_within(to, MOST_THRESHOLD) && from <= to
}

impl<'a, K: Kind> Session<'a, K> {
    /// A session that was never opened. The blank event, any one, fills the room in which the events of a list will stand.
    pub fn new(blank: K, heap: Global) -> Result<Session<'a, K>, AllocError>
        ensures { IfOk result (λ s. Stands K.Kind.order s []) }
    {
        let walk = Walk::fresh(blank, heap)?;
        Ok(Session {
            walk,
            stage: Stage::Made,
            threshold: 0,
            skipped: false,
            count: 0,
        })
    }

    /// Opens a list over tapes, and forgets what went before.
    pub fn open(&mut self, opening: Opening<'a, K>) -> Result<(), Refusal>
        ensures answer { result ≡ or_refused (opening_refusal K.Kind.order (opening_of opening.entry)) tt }
        ensures after { Leaves result self.old self.new (λ _. OpenedBy self.old self.new opening.entry × Sound K.Kind.order self.new.walk) }
        ensures extends { Extends K.Kind.order (law.Open (opening_of opening.entry)) (says_done result) self.old self.new }
    {
        hear(self.stage, Ask::Open)?;
        check_opening(&opening)?;
        self.walk
            .open(opening.tapes, opening.lexicon, opening.longest as usize);
        self.stage = Stage::Opened;
        self.threshold = opening.threshold;
        self.skipped = false;
        self.count = 0;
        Ok(())
    }

    /// Hands out the next pattern: its length and support, and its lexicon places at the row's front; or END, as none.
    pub fn next<F: Filter<K>>(
        &mut self,
        filter: &F,
        row: &mut [u16],
    ) -> Result<Option<(usize, u32)>, Refusal>
        ensures refused { refusal_in result ≡ next_refusal self.old (length row.old) }
        ensures after { Leaves result self.old self.new (AfterNext self.old self.new) }
        ensures row_after { row.new ≡ row_after result (at self.new.walk) row.old }
        ensures means { Sound K.Kind.order self.old.walk → Leaves result self.old self.new (λ found. Sound K.Kind.order self.new.walk × NextMeans K.Kind.order (F.Filter.wants filter.now) self.old self.new found) }
        ensures extends { Extends K.Kind.order (law.Next (F.Filter.wants filter.now) (length row.old)) (says_next result row.new) self.old self.new }
    {
        hear(self.stage, Ask::Next)?;
        if row.len() < self.walk.longest() {
            return Err(Refusal::Room);
        }
        if let Stage::Ended = self.stage {
            return Ok(None);
        }
        let Some(support) = self.walk.next_pattern(filter, self.threshold, self.skipped) else {
            self.stage = Stage::Ended;
            return Ok(None);
        };
        self.stage = Stage::Listing;
        self.skipped = false;
        self.count = self.count.saturating_add(1);
        let places = self.walk.places();
        row[..places.len()].copy_from_slice(places);
        Ok(Some((places.len(), support)))
    }

    /// Marks the latest pattern as skipped: none of its extensions will be handed out.
    pub fn skip(&mut self) -> Result<(), Refusal>
        ensures answer { result ≡ or_refused (stage_refusal self.old.stage asks.Skip) tt }
        ensures after { Leaves result self.old self.new (λ _. MarkedLatest self.old self.new) }
        ensures extends { Extends K.Kind.order law.Skip (says_done result) self.old self.new }
    {
        hear(self.stage, Ask::Skip)?;
        self.skipped = true;
        Ok(())
    }

    /// Raises the threshold.
    pub fn raise(&mut self, threshold: u32) -> Result<(), Refusal>
        ensures answer { result ≡ or_refused (raise_refusal self.old threshold) tt }
        ensures after { Leaves result self.old self.new (λ _. RaisedTo self.old self.new threshold) }
        ensures extends { Extends K.Kind.order (law.Raise threshold) (says_done result) self.old self.new }
    {
        hear(self.stage, Ask::Raise)?;
        if !may_raise(self.threshold, threshold) {
            return Err(Refusal::Threshold);
        }
        self.threshold = threshold;
        Ok(())
    }

    /// The support of the latest pattern with any one event behind it; before the first pattern, of that event alone.
    pub fn probe(&mut self, event: &K) -> Result<u32, Refusal>
        ensures refused { refusal_in result ≡ stage_refusal self.old.stage asks.Probe }
        ensures after { Leaves result self.old self.new (λ _. Probed self.old self.new) }
        ensures means { Sound K.Kind.order self.old.walk → Leaves result self.old self.new (λ s. Sound K.Kind.order self.new.walk × (s ≡ support K.Kind.order (tapes_of self.old.walk.trail) (picked (lexicon_of self.old.walk) (at self.old.walk) ++ (event.now ∷ [])))) }
        ensures extends { Extends K.Kind.order (law.Probe event.now) (says_support result) self.old self.new }
    {
        hear(self.stage, Ask::Probe)?;
        Ok(self.walk.try_event(event))
    }

    /// The threshold that stands, and how many patterns were handed out since opening, counted up to 4,294,967,295.
    pub fn tell(&self) -> Result<(u32, u32), Refusal>
        ensures answer { result ≡ or_refused (stage_refusal self.now.stage asks.Tell) (self.now.threshold, self.now.count) }
        ensures extends { Extends K.Kind.order law.Tell (says_told result) self.now self.now }
    {
        hear(self.stage, Ask::Tell)?;
        Ok((self.threshold, self.count))
    }
}
