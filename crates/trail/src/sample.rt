ghost use Rattle.std.specs.Prelude.{◌≡◌, ◌≤◌, [], ◌∷◌, length};
ghost use Rattle.bundle.specs.Tapes.{tapes};
ghost use Rattle.matching.specs.Support.{support};

use crate::trail::Trail;
use bundle::tape::Tapes;
use event::kind::Kind;

// The support of one event in tapes that are overwritten as soon as no trail goes over them.
fn sample<'a, K: Kind>(events: &'a mut [K], offsets: &'a [u32], lexicon: &'a [K], event: &K) -> u32
    requires event { 1 ≤ length events.old }
    requires some { 1 ≤ length offsets.now }
    requires few { length offsets.now ≤ 513 }
    ensures { result ≡ support K.Kind.order (tapes events.old offsets.now) (event.now ∷ []) }
{
    let mut trail = Trail::open(Tapes { events, offsets }, lexicon);
    let support = trail.try_event(event);
    events[0] = *event;
    support
}
