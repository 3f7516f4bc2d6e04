ghost use Rattle.std.specs.Prelude.{◌≡◌, ℕ, ◌+◌, ◌<◌, ◌≤◌, ◌++◌, length, take, drop, slice_index_or, MatchOption};
ghost use Rattle.std.specs.List.{insert};
ghost use Rattle.event.specs.Orders.{is_before};
ghost use Rattle.matching.specs.Checks.{or_refused};
ghost use Rattle.matching.specs.Learning.{learned, learn_refusal, filled, LearningStands};
ghost use Rattle.matching.specs.Lexicons.{Rising};
ghost use Rattle.matching.specs.Picks.{picked, Within, Stands, Placed};

use crate::lexicon::MOST_LEXICON;
use bundle::reader::MOST_EVENTS;
use event::kind::Kind;
use event::order::Order;
use event::refusal::Refusal;
use std::mem::replace;

// A rising lexicon, kept as the places of its events among those that it is learned from.
#[derive(Drop)]
struct Picks<'e, K: Kind> {
    events: &'e [K],
    places: &'e [u16],
    ghost within: { Within places.now (length events.now) },
    ghost rising: { Rising K.Kind.order (picked events.now places.now) },
}

impl<K: Kind> Picks<'_, K> {
    // Whether the lexicon's event at a place is before another.
    fn is_before(&self, at: usize, event: &K) -> bool
        requires { at < length self.now.places.now }
        ensures { (d : K) → result ≡ is_before (K.Kind.order (slice_index_or (picked self.now.events.now self.now.places.now) at d) event.now) }
    {
        self.events[self.places[at] as usize].compare(event) == Order::Before
    }

    // Where an event stands in the lexicon, or would stand.
    fn place_of(&self, event: &K) -> usize
        ensures bound { result ≤ length self.now.places.now }
        ensures stands { Stands K.Kind.order (picked self.now.events.now self.now.places.now) event.now result }
    {
        let count = self.places.len();
        if count == 0 {
            return 0;
        }
        let mut power = count.ilog2();
        let all = 1 << power;
        let mut low = if self.is_before(all - 1, event) {
            count - all + 1
        } else {
            0
        };
        // an answer cannot be foretold, so it is shifted and added, which needs no branch
        // (partition_point and binary_search_by were tried: they take more than twice as long as plain Rust)
        while power > 0 {
            power -= 1;
            let half = 1 << power;
            low += usize::from(self.is_before(low + half - 1, event)) << power;
        }
        low
    }

    // Where an event makes the lexicon longer; none if an alike one is there.
    fn new_place(&self, event: &K) -> Option<usize>
        ensures { Placed K.Kind.order (picked self.now.events.now self.now.places.now) event.now result }
    {
        let at = self.place_of(event);
        if at == self.places.len() {
            return Some(at);
        }
        match self.events[self.places[at] as usize].compare(event) {
            Order::Alike => None,
            _ => Some(at),
        }
    }

    // Writes the lexicon at a row's front.
    fn lay(&self, row: &mut [K])
        requires { length self.now.places.now ≤ length row.old }
        ensures { row.new ≡ picked self.now.events.now self.now.places.now ++ drop (length self.now.places.now) row.old }
    {
        // by index: of what a zip over iter_mut writes, a proof knows only the length
        for (k, place) in self.places.iter().enumerate() {
            row[k] = self.events[*place as usize];
        }
    }
}

// Puts a place in between the first so many of a row.
fn insert_place(places: &mut [u16], count: usize, at: usize, place: u16)
    requires inside { at ≤ count }
    requires room { count < length places.old }
    ensures { take (count + 1) places.new ≡ insert (take count places.old) at place }
{
    // carried along: rotate_right would ask a C program for memmove
    let mut carried = place;
    for slot in places[at..=count].iter_mut() {
        carried = replace(slot, carried);
    }
}

// Gathers the first events of their classes, in rising order, with their places at a row's front; none if there are more than so many.
fn gather<'e, K: Kind>(events: &'e [K], most: usize, places: &'e mut [u16]) -> Option<Picks<'e, K>>
    requires few { length events.now ≤ 65535 }
    requires room { most ≤ length places.old }
    ensures { MatchOption result (most < length (learned K.Kind.order events.now)) (λ picks. (length picks.places.now ≤ most) × (picked picks.events.now picks.places.now ≡ learned K.Kind.order events.now) × (picks.events.now ≡ events.now)) }
{
    let mut count = 0;
    for (i, event) in events.iter().enumerate() {
        let picks = Picks {
            events,
            places: &places[..count],
        };
        let Some(at) = picks.new_place(event) else {
            continue;
        };
        if count == most {
            return None;
        }
        insert_place(places, count, at, i as u16);
        count += 1;
    }
    Some(Picks {
        events,
        places: &places[..count],
    })
}

/// Learns a lexicon from events: writes the first event of each class in rising order at a row's front, and returns how many. SIZE if there are too many events, then ROOM if there are more classes than the row or a lexicon has places for; the row then stays.
pub fn learn<K: Kind>(events: &[K], row: &mut [K]) -> Result<usize, Refusal>
    ensures answer { result ≡ or_refused (learn_refusal K.Kind.order events.now (length row.old)) (length (learned K.Kind.order events.now)) }
    ensures after { row.new ≡ filled (learn_refusal K.Kind.order events.now (length row.old)) (learned K.Kind.order events.now) row.old }
{
    if events.len() > MOST_EVENTS {
        return Err(Refusal::Size);
    }
    // a row of its own, so that memory is never wanting
    let mut places = [0; MOST_LEXICON];
    let Some(picks) = gather(events, row.len().min(MOST_LEXICON), &mut places) else {
        return Err(Refusal::Room);
    };
    picks.lay(row);
    Ok(picks.places.len())
}

/// What is learned rises strictly, has exactly one alike event for each event, and each of its events is the first of its class.
pub fn learning_stands<K: Kind>() -> u8
    ensures { LearningStands K.Kind.order }
{
    0
}
