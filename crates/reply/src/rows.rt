ghost use Rattle.std.specs.Prelude.{◌≡◌, length, None};
ghost use Rattle.matching.specs.Rows.{bundle_refusal};

use bundle::tape::Tapes;

/// The tapes of a bundle that was read, and the lexicon that was learned from it.
#[derive(Drop)]
pub struct Rows<'a, K> {
    pub tapes: Tapes<'a, K>,
    pub lexicon: &'a [K],
    ghost accepted: { bundle_refusal (length tapes.events.now) tapes.offsets.now ≡ None },
}
