ghost use Rattle.std.specs.Prelude.{◌≡◌, length};
ghost use Rattle.matching.specs.Checks.{or_refused};
ghost use Rattle.matching.specs.Rows.{bundle_refusal, rows_refusal};

use crate::lexicon::{MOST_LEXICON, rises_strictly};
use bundle::offsets::wrong_offset;
use bundle::reader::{MOST_EVENTS, MOST_TAPES};
use bundle::tape::Tapes;
use event::kind::Kind;
use event::refusal::Refusal;

// Checks a bundle: SIZE if it has too many tapes or events, OFFSETS if an offset is wrong or there are none.
pub(crate) fn check_bundle<K: Kind>(tapes: &Tapes<'_, K>) -> Result<(), Refusal>
    ensures { result ≡ or_refused (bundle_refusal (length tapes.now.events.now) tapes.now.offsets.now) tt }
{
    if tapes.offsets.len() > MOST_TAPES + 1 || tapes.events.len() > MOST_EVENTS {
        return Err(Refusal::Size);
    }
    if wrong_offset(tapes.offsets, tapes.events.len() as u32).is_some() {
        return Err(Refusal::Offsets);
    }
    Ok(())
}

/// Checks the rows of an opening: SIZE if there are too many tapes, events or events of the lexicon, then OFFSETS if an offset is wrong or there are none, then LEXICON if the lexicon does not rise strictly.
pub fn check_rows<K: Kind>(tapes: &Tapes<'_, K>, lexicon: &[K]) -> Result<(), Refusal>
    ensures { result ≡ or_refused (rows_refusal K.Kind.order tapes.now.events.now tapes.now.offsets.now lexicon.now) tt }
{
    if lexicon.len() > MOST_LEXICON {
        return Err(Refusal::Size);
    }
    check_bundle(tapes)?;
    if !rises_strictly(lexicon) {
        return Err(Refusal::Lexicon);
    }
    Ok(())
}
