ghost use Rattle.filter.specs.Filters.{holds_wants, holds_barren};
ghost use Rattle.filter.specs.Standing.{holds_stands};

use crate::alike::holds_alike;
use crate::filter::Filter;
use event::kind::Kind;

/// Wants the lists with an event alike to this one; calls none barren.
#[derive(Clone, Copy)]
pub struct Holds<K> {
    pub event: K,
}

impl<K: Kind> Filter<K> for Holds<K> {
    ghost wants = { λ f. holds_wants K.Kind.order f.event };

    ghost barren = { λ f. holds_barren };

    ghost fruitless = { λ f. holds_stands K.Kind.order f.event };

    fn wanted(&self, list: &[K]) -> bool {
        holds_alike(&self.event, list)
    }

    fn is_barren(&self, _list: &[K]) -> bool {
        false
    }
}
