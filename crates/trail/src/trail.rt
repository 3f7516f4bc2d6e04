ghost use Rattle.std.specs.Prelude.{◌≡◌, ℕ, ◌+◌, ◌<◌, ◌≤◌, length, slice_index};
ghost use Rattle.trail.specs.Levels.{Steps};

use crate::level::{Head, MOST_LENGTH, Rows};
use bundle::tape::Tapes;

/// A list of lexicon places that the trail stands at, and the levels of the list: level k lies in the rows from `bounds[k]` to `bounds[k + 1]`, and `head` is the head of the deepest.
// No bound on the kind: with one, each definition that names a trail would take the kind's ghost members. So what every call keeps, that a trail is sound and what it goes over, stands in the contracts of the calls.
// The list and the bounds are arrays, with the list's length in `depth`: a trail has no heap.
#[derive(Drop)]
pub struct Trail<'a, K> {
    pub(crate) tapes: Tapes<'a, K>,
    pub(crate) lexicon: &'a [K],
    pub(crate) rows: Rows,
    pub(crate) head: Head,
    pub(crate) bounds: [usize; MOST_LENGTH + 2],
    pub(crate) list: [u16; MOST_LENGTH],
    pub(crate) depth: usize,
    ghost short: { depth ≤ 16 },
    ghost steps: { Steps bounds depth },
    ghost starts: { head.start ≡ slice_index bounds depth },
    ghost ends: { head.start + head.count ≡ slice_index bounds (depth + 1) },
    ghost known: { (k : ℕ) → k < depth → slice_index list k < length lexicon.now },
}
