ghost use Rattle.std.specs.Prelude.{◌≡◌, ◌&&◌, nat_le};
ghost use Rattle.law.specs.Openings.{opening_refusal};
ghost use Rattle.matching.specs.Checks.{or_refused};
ghost use Rattle.session.specs.Sessions.{opening_of};

use bundle::tape::Tapes;
use event::kind::Kind;
use event::refusal::Refusal;
use matching::rows::check_rows;
use trail::level::MOST_LENGTH;

/// The largest threshold.
pub const MOST_THRESHOLD: u32 = 512;

/// What a session is opened with: the tapes of a bundle, a lexicon, the threshold, and the longest length of a pattern.
#[derive(Clone, Copy)]
pub struct Opening<'a, K> {
    pub tapes: Tapes<'a, K>,
    pub lexicon: &'a [K],
    pub threshold: u32,
    pub longest: u32,
}

// Whether a number is from 1 to the most.
pub(crate) fn is_within(number: u32, most: u32) -> bool
    ensures { result ≡ (nat_le 1 number && nat_le number most) }
{
    (1..=most).contains(&number)
}

// Checks an opening: THRESHOLD and LENGTH if these are outside their ranges, then the rows.
pub(crate) fn check_opening<'a, K: Kind>(opening: &Opening<'a, K>) -> Result<(), Refusal>
    ensures { result ≡ or_refused (opening_refusal K.Kind.order (opening_of opening.now)) tt }
{
    if !is_within(opening.threshold, MOST_THRESHOLD) {
        return Err(Refusal::Threshold);
    }
    if !is_within(opening.longest, MOST_LENGTH as u32) {
        return Err(Refusal::Length);
    }
    check_rows(&opening.tapes, opening.lexicon)
}
