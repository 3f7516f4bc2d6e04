ghost use Rattle.std.specs.Prelude.{◌≡◌, ◌<◌, ◌≤◌, length, IfSome};
ghost use Rattle.matching.specs.Inclusion.{place_after, includes, InclusionIsEmbedding};

use event::kind::Kind;
use event::order::Order;

/// The place after the first event from a place on that is alike to an event, or none.
pub fn place_after<K: Kind>(tape: &[K], from: usize, event: &K) -> Option<usize>
    ensures value { result ≡ place_after K.Kind.order tape.now from event.now }
    ensures bound { IfSome result (λ place. (from < place) × (place ≤ length tape.now)) }
{
    let last = tape.len().saturating_sub(1);
    let mut i = from;
    // two events in a turn, so that fewer turns are tested; by index: slice patterns and position miss the bar of speed
    while i < last {
        if let Order::Alike = tape[i].compare(event) {
            return Some(i + 1);
        }
        if let Order::Alike = tape[i + 1].compare(event) {
            return Some(i + 2);
        }
        i += 2;
    }
    if i < tape.len() {
        if let Order::Alike = tape[i].compare(event) {
            return Some(i + 1);
        }
    }
    None
}

/// Whether a tape includes a pattern.
pub fn tape_includes<K: Kind>(tape: &[K], pattern: &[K]) -> bool
    ensures { result ≡ includes K.Kind.order tape.now pattern.now }
{
    let mut place = 0;
    for event in pattern {
        let Some(next) = place_after(tape, place, event) else {
            return false;
        };
        place = next;
    }
    true
}

/// A tape includes a pattern exactly if it has strictly rising places, one for each event of the pattern, with alike events.
pub fn inclusion_stands<K: Kind>() -> u8
    ensures { InclusionIsEmbedding K.Kind.order }
{
    0
}
