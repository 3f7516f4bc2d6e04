ghost use Rattle.std.specs.Prelude.{◌≡◌, ◌-◌, ◌^◌, ◌<◌, [], length, slice_index_or};
ghost use Rattle.bundle.specs.Tapes.{tapes, all_tapes};

use event::kind::Kind;

/// The tape of a number, and an empty one where there is none. What lies past the events is not there. The offsets may be lent for the call alone.
pub fn tape_at<'a, K: Kind>(events: &'a [K], offsets: &[u32], number: usize) -> &'a [K]
    ensures tape { result.now ≡ slice_index_or (tapes events.now offsets.now) number [] }
    ensures short { length result.now < 2 ^ 32 }
{
    let Some([from, to, ..]) = offsets.get(number..) else {
        return &[];
    };
    let to = (*to as usize).min(events.len());
    let from = (*from as usize).min(to);
    &events[from..to]
}

/// The tapes of a bundle, in two lent rows: tape t has the events from offset t to just before offset t + 1.
#[derive(Clone, Copy)]
pub struct Tapes<'a, K> {
    pub events: &'a [K],
    pub offsets: &'a [u32],
}

impl<'a, K: Kind> Tapes<'a, K> {
    /// The tape of a number, and an empty one where there is none.
    pub fn tape(&self, number: usize) -> &'a [K]
        ensures tape { result.now ≡ slice_index_or (all_tapes self.now) number [] }
        ensures short { length result.now < 2 ^ 32 }
    {
        tape_at(self.events, self.offsets, number)
    }

    /// How many tapes there are: one less than offsets, and none where there are none.
    pub fn count(&self) -> usize
        ensures { result ≡ length self.now.offsets.now - 1 }
    {
        self.offsets.len().saturating_sub(1)
    }
}
