ghost use Rattle.std.specs.Prelude.{◌≡◌, [], slice_index_or};
ghost use Rattle.bundle.specs.Tapes.{all_tapes};
ghost use Rattle.matching.specs.Inclusion.{place_after};

use bundle::tape::Tapes;
use event::kind::Kind;
use matching::inclusion::place_after;

/// The place after the next event that is alike to an event, in a tape from a place on.
pub(crate) fn next_place<K: Kind>(
    tapes: Tapes<'_, K>,
    number: usize,
    place: usize,
    event: &K,
) -> Option<u32>
    ensures { result ≡ place_after K.Kind.order (slice_index_or (all_tapes tapes.entry) number []) place event.now }
{
    let next = place_after(tapes.tape(number), place, event)?;
    Some(next as u32)
}
