ghost use Rattle.std.specs.Prelude.{◌≡◌, ◌≤◌, not, length, is_some, slice_set};
ghost use Rattle.law.specs.Openings.{opening_refusal};

use crate::opening::Opening;
use crate::session::Session;
use bundle::tape::Tapes;
use event::kind::Kind;

// Whether a session can be opened over tapes.
fn opens<'a, K: Kind>(session: &mut Session<'a, K>, tapes: Tapes<'a, K>, lexicon: &'a [K]) -> bool
    ensures { result ≡ not (is_some (opening_refusal K.Kind.order (record { events = tapes.entry.events.now; offsets = tapes.entry.offsets.now; lexicon = lexicon.now; threshold = 1; longest = 1 }))) }
{
    let opening = Opening {
        tapes,
        lexicon,
        threshold: 1,
        longest: 1,
    };
    session.open(opening).is_ok()
}

// The same, where the first event is overwritten before. It cannot be afterwards, as the session is still in use.
fn sample<'a, K: Kind>(
    session: &mut Session<'a, K>,
    events: &'a mut [K],
    offsets: &'a [u32],
    lexicon: &'a [K],
    event: K,
) -> bool
    requires { 1 ≤ length events.old }
    ensures { result ≡ not (is_some (opening_refusal K.Kind.order (record { events = slice_set events.entry.now 0 event; offsets = offsets.now; lexicon = lexicon.now; threshold = 1; longest = 1 }))) }
{
    events[0] = event;
    let opened = opens(session, Tapes { events, offsets }, lexicon);
    opened
}
