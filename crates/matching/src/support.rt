ghost use Rattle.std.specs.Prelude.{◌≡◌, ◌≤◌, length};
ghost use Rattle.bundle.specs.Tapes.{all_tapes};
ghost use Rattle.matching.specs.Checks.{or_refused};
ghost use Rattle.matching.specs.Rows.{bundle_refusal};
ghost use Rattle.matching.specs.Support.{support, SupportFalls};

use crate::inclusion::tape_includes;
use crate::rows::check_bundle;
use bundle::tape::Tapes;
use event::kind::Kind;
use event::refusal::Refusal;

// How many tapes of a bundle include a pattern.
fn count_tapes<K: Kind>(tapes: &Tapes<'_, K>, pattern: &[K]) -> u32
    requires { length tapes.now.offsets.now ≤ 513 }
    ensures { result ≡ support K.Kind.order (all_tapes tapes.now) pattern.now }
{
    (0..tapes.count())
        .filter(|number| tape_includes(tapes.tape(*number), pattern))
        .count() as u32
}

/// The support of a pattern in a bundle: how many tapes include it. SIZE if there are too many tapes or events, then OFFSETS if an offset is wrong or there are none.
pub fn support_of<K: Kind>(tapes: &Tapes<'_, K>, pattern: &[K]) -> Result<u32, Refusal>
    ensures { result ≡ or_refused (bundle_refusal (length tapes.now.events.now) tapes.now.offsets.now) (support K.Kind.order (all_tapes tapes.now) pattern.now) }
{
    check_bundle(tapes)?;
    Ok(count_tapes(tapes, pattern))
}

/// A tape that includes a list includes every list that it begins with, so support falls or stays with a longer pattern; and it is at most the number of tapes.
pub fn support_falls<K: Kind>() -> u8
    ensures { SupportFalls K.Kind.order }
{
    0
}
