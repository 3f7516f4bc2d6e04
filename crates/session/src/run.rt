ghost use Rattle.std.specs.Prelude.{◌≡◌, IfOk};
ghost use Rattle.law.specs.Transcripts as law;
ghost use Rattle.session.specs.Runs.{law_call, says, Ran};
ghost use Rattle.session.specs.Sessions.{Extends};

use crate::call::{Call, Given};
use crate::places::Places;
use crate::session::Session;
use event::kind::Kind;
use event::refusal::Refusal;
use filter::filter::Filter;
use std::alloc::{AllocError, Global};
use trail::level::MOST_LENGTH;

// Sends a next with a row of so many places.
fn send_next<'a, K: Kind, F: Filter<K>>(
    session: &mut Session<'a, K>,
    filter: &F,
    room: usize,
) -> Result<Given, Refusal>
    ensures { Extends K.Kind.order (law.Next (F.Filter.wants filter.now) room) (says result) session.old session.new }
{
    let mut row = [0; MOST_LENGTH];
    // no pattern is longer, so a longer row gets the same answer
    let found = session.next(filter, &mut row[..room.min(MOST_LENGTH)])?;
    Ok(match found {
        Some((length, support)) => Given::Pattern(Places { row, length }, support),
        None => Given::End,
    })
}

/// Sends a call to a session.
pub fn send<'a, K: Kind, F: Filter<K>>(
    session: &mut Session<'a, K>,
    filter: &F,
    call: &Call<'a, K>,
) -> Result<Given, Refusal>
    ensures { Extends K.Kind.order (law_call (F.Filter.wants filter.now) call.now) (says result) session.old session.new }
{
    match call {
        Call::Open(opening) => session.open(*opening).map(|()| Given::Accepted),
        Call::Next(room) => send_next(session, filter, *room),
        Call::Skip => session.skip().map(|()| Given::Accepted),
        Call::Raise(threshold) => session.raise(*threshold).map(|()| Given::Accepted),
        Call::Probe(event) => session.probe(event).map(|support| Given::Support(support)),
        Call::Tell => session
            .tell()
            .map(|(threshold, count)| Given::Told(threshold, count)),
    }
}

/// Makes a session, sends it the calls one by one, and returns the answers. A filter and any calls, in any order and number, with anything in them: the law holds of the whole, and of each part from its start on.
pub fn run<'a, K: Kind, F: Filter<K>>(
    filter: &F,
    blank: K,
    calls: &[Call<'a, K>],
    heap: Global,
) -> Result<Vec<Result<Given, Refusal>>, AllocError>
    ensures { IfOk result (λ answers. Ran K.Kind.order (F.Filter.wants filter.now) calls.now answers.items) }
{
    let mut session = Session::new(blank, heap)?;
    let mut answers = Vec::new(heap);
    for call in calls {
        answers.push(send(&mut session, filter, call))?;
    }
    Ok(answers)
}
