ghost use Rattle.std.specs.Prelude.{◌≡◌, ◌≤◌, length, take};
ghost use Rattle.matching.specs.Picks.{picked};
ghost use Rattle.trail.specs.Moves.{stands_at};

use trail::trail::Trail;

/// A walk over the lists of an opening: the trail, room for the events of the list at which it stands, and the longest length.
#[derive(Drop)]
pub struct Walk<'a, K> {
    // that the trail is sound stands in the calls' contracts: here it would need the kind's bound on the struct
    pub(crate) trail: Trail<'a, K>,
    // filled once, with any event, so that no later call needs memory
    pub(crate) room: Vec<K>,
    pub(crate) longest: usize,
    ghost few: { length trail.lexicon.now ≤ 1024 },
    ghost short: { longest ≤ 16 },
    ghost fit: { length (stands_at trail) ≤ longest },
    ghost roomy: { 16 ≤ length room.items },
    ghost spelled: { take (length (stands_at trail)) room.items ≡ picked trail.lexicon.now (stands_at trail) },
}
