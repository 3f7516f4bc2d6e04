ghost use Rattle.std.specs.Prelude.{◌≡◌, ℕ, ◌<◌, true, false, List, length, ◌≢◌};
ghost use Rattle.law.specs.Order.{Begins, IsPattern};
ghost use Rattle.search.specs.Turns.{Stands, Left, Rests, Moves, Stops};
ghost use Rattle.search.specs.Walks.{at, lexicon_of, Sound, wants_of, limits_of, SameRows, TurnedOver, ReachedOver, FindsOver};

use crate::turn::Turn;
use crate::walk::Walk;
use event::kind::Kind;
use filter::filter::Filter;

impl<'a, K: Kind> Walk<'a, K> {
    // Goes back to the parent, to go on with the next sibling.
    fn leave(&mut self) -> Turn
        ensures same { SameRows self.old self.new }
        ensures moved { Left (at self.old) (at self.new) result }
        ensures sound { Sound K.Kind.order self.old → Sound K.Kind.order self.new }
    {
        match self.back() {
            Some(last) => Turn::Go(last as usize + 1),
            None => Turn::End,
        }
    }

    // Whether no pattern that extends the list can be wanted: the list has the longest length, or it is barren.
    fn is_closed<F: Filter<K>>(&self, filter: &F) -> bool
        ensures hopeless { result ≡ true → (q : List ℕ) → Begins (at self.now) q → IsPattern (length (lexicon_of self.now)) self.now.longest q → wants_of (F.Filter.wants filter.now) self.now q ≢ true }
        ensures short { result ≡ false → length (at self.now) < self.now.longest }
    {
        self.trail.depth() >= self.longest || filter.is_barren(self.list())
    }

    // The first turn: goes below the latest pattern, or past it.
    // The filter and the need stay two arguments: a struct of them would be made for one call, and taken apart in it.
    fn begin<F: Filter<K>>(&mut self, filter: &F, need: u32, skip: bool) -> Turn
        ensures same { SameRows self.old self.new }
        ensures rests { Rests (limits_of self.old need) (at self.new) result }
        ensures sound { Sound K.Kind.order self.old → Sound K.Kind.order self.new }
        ensures reached { ReachedOver K.Kind.order (F.Filter.wants filter.now) need self.old self.new skip result }
    {
        if skip || self.is_closed(filter) {
            return self.leave();
        }
        Turn::Go(0)
    }

    // One turn: tries a child.
    fn advance<F: Filter<K>>(&mut self, filter: &F, need: u32, place: usize) -> Turn
        requires { Stands (limits_of self.old need) (at self.old) }
        ensures same { SameRows self.old self.new }
        ensures moved { Moves (limits_of self.old need) (at self.old) place (at self.new) result }
        ensures sound { Sound K.Kind.order self.old → Sound K.Kind.order self.new }
        ensures turned { Sound K.Kind.order self.old → TurnedOver K.Kind.order (F.Filter.wants filter.now) need self.old self.new place result }
    {
        if place >= self.lexicon_length() {
            return self.leave();
        }
        let Some(count) = self.deeper(place as u16, need) else {
            return Turn::Go(place + 1);
        };
        if filter.wanted(self.list()) {
            return Turn::Found(count);
        }
        if !self.is_closed(filter) {
            return Turn::Go(0);
        }
        self.leave()
    }

    /// Goes to the first pattern after the list at which the walk stands that the filter wants and whose support reaches the need, and returns its support. Where `skip` is set, patterns that extend the list are passed over. Where there is no such pattern, the walk comes to stand at the empty list.
    pub fn next_pattern<F: Filter<K>>(&mut self, filter: &F, need: u32, skip: bool) -> Option<u32>
        ensures same { SameRows self.old self.new }
        ensures moved { Stops (limits_of self.old need) (at self.new) result }
        ensures sound { Sound K.Kind.order self.old → Sound K.Kind.order self.new }
        ensures finds { Sound K.Kind.order self.old → FindsOver K.Kind.order (F.Filter.wants filter.now) need self.old self.new skip result }
    {
        // `skip` is one more ground for leaving the list: two functions would share all the rest
        let mut turn = self.begin(filter, need, skip);
        loop {
            match turn {
                Turn::Go(place) => turn = self.advance(filter, need, place),
                Turn::Found(count) => return Some(count),
                Turn::End => return None,
            }
        }
    }
}
