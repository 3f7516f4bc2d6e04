ghost use Rattle.std.specs.Prelude.{◌≡◌};
ghost use Rattle.filter.specs.Alikes.{holds_alike, HoldsExactly};

use event::kind::Kind;
use event::order::Order;

/// Whether a list has an event alike to the given one: exactly if some place of it has.
#[tactic(auto, using(crate::proofs::Held::holds_exactly))]
pub fn holds_alike<K: Kind>(event: &K, list: &[K]) -> bool
    ensures value { result ≡ holds_alike K.Kind.order event.now list.now }
    ensures exact { HoldsExactly K.Kind.order }
{
    list.iter()
        .any(|other| other.compare(event) == Order::Alike)
}
