ghost use Rattle.filter.specs.Filters.{all_wants, all_barren};
ghost use Rattle.filter.specs.Standing.{all_stands};

use crate::filter::Filter;
use event::kind::Kind;

/// Wants every list; calls none barren.
#[derive(Clone, Copy)]
pub struct All;

impl<K: Kind> Filter<K> for All {
    ghost wants = { λ f. all_wants };

    ghost barren = { λ f. all_barren };

    ghost fruitless = { λ f. all_stands };

    fn wanted(&self, _list: &[K]) -> bool {
        true
    }

    fn is_barren(&self, _list: &[K]) -> bool {
        false
    }
}
