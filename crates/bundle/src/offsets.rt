ghost use Rattle.std.specs.Prelude.{◌≡◌, ℕ, ◌<◌, map, IfSome};
ghost use Rattle.std.specs.List.{range_with_len};
ghost use Rattle.bundle.specs.Offsets.{right_offset, Gives, wrong_offset, OffsetsStand};

// Whether an offset may stand: it falls below none before it, or is 0 where there is none, and is the end if it is the last.
fn is_right(before: Option<u32>, here: u32, end: Option<u32>) -> bool
    ensures { result ≡ right_offset before here end }
{
    let begins = before.map_or(here == 0, |before| before <= here);
    let ends = end.is_none_or(|end| here == end);
    begins && ends
}

// The lowest index at which an offset may not stand, or 0 where there are none. A function says the offset at each.
pub(crate) fn lowest_wrong<F: Fn(usize) -> u32>(
    count: usize,
    offset: F,
    events: u32,
) -> Option<usize>
    requires { (i : ℕ) → i < count → F.pre offset i }
    ensures lowest { (at : ℕ → ℕ) → Gives (F.post offset) count at → result ≡ wrong_offset events (map at (range_with_len 0 count)) }
    ensures within { 0 < count → IfSome result (λ i. i < count) }
{
    if count == 0 {
        return Some(0);
    }
    // each offset is asked for once, so the loop keeps the one before
    let mut before = None;
    for index in 0..count {
        let here = offset(index);
        let end = (index + 1 == count).then_some(events);
        if !is_right(before, here, end) {
            return Some(index);
        }
        before = Some(here);
    }
    None
}

/// The index of the wrong offset, if one is: the lowest that may not stand, or 0 where there are none.
pub fn wrong_offset(offsets: &[u32], events: u32) -> Option<usize>
    ensures { result ≡ wrong_offset events offsets.now }
{
    lowest_wrong(offsets.len(), |index| offsets[index], events)
}

/// Offsets have no wrong one exactly if the first is 0, none falls, and the last is the number of events.
pub fn offsets_stand() -> u8
    ensures { OffsetsStand }
{
    0
}
