ghost use Rattle.std.specs.Prelude.{◌≡◌};
ghost use Rattle.regular.specs.Labels.{suits};

use event::kind::Kind;
use event::order::Order;

/// What stands at a leaf: a dot, which any one event meets, or a label's event.
// an enum and no `Option`: a text may be no leaf at all, and `Option<Option<K>>` would say less than `Option<Label<K>>`
#[derive(Clone, Copy, Debug, PartialEq, Eq)]
pub enum Label<K> {
    Any,
    Event(K),
}

impl<K: Kind> Label<K> {
    // Whether an event meets the leaf.
    pub(crate) fn meets(&self, event: &K) -> bool
        ensures { result ≡ suits K.Kind.order self.now event.now }
    {
        match self {
            Label::Any => true,
            Label::Event(label) => label.compare(event) == Order::Alike,
        }
    }
}
