ghost use Rattle.filter.specs.Filters.{lacks_wants, lacks_barren};
ghost use Rattle.filter.specs.Standing.{lacks_stands};

use crate::alike::holds_alike;
use crate::filter::Filter;
use event::kind::Kind;

/// Wants the lists with no event alike to this one; a list with one is barren.
#[derive(Clone, Copy)]
pub struct Lacks<K> {
    pub event: K,
}

impl<K: Kind> Filter<K> for Lacks<K> {
    ghost wants = { λ f. lacks_wants K.Kind.order f.event };

    ghost barren = { λ f. lacks_barren K.Kind.order f.event };

    ghost fruitless = { λ f. lacks_stands K.Kind.order f.event };

    fn wanted(&self, list: &[K]) -> bool {
        !holds_alike(&self.event, list)
    }

    fn is_barren(&self, list: &[K]) -> bool {
        holds_alike(&self.event, list)
    }
}
