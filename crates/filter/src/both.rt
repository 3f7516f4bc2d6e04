ghost use Rattle.filter.specs.Filters.{both_wants, both_barren};
ghost use Rattle.filter.specs.Standing.{both_stands};

use crate::filter::Filter;
use event::kind::Kind;

/// Wants the lists that both filters want; a list that either calls barren is barren.
#[derive(Drop)]
pub struct Both<F, G> {
    pub first: F,
    pub second: G,
}

impl<K: Kind, F: Filter<K>, G: Filter<K>> Filter<K> for Both<F, G> {
    ghost wants = { λ f. both_wants (F.Filter.wants f.first) (G.Filter.wants f.second) };

    ghost barren = { λ f. both_barren (F.Filter.barren f.first) (G.Filter.barren f.second) };

    ghost fruitless = { λ f. both_stands (F.Filter.wants f.first) (G.Filter.wants f.second) (F.Filter.fruitless f.first) (G.Filter.fruitless f.second) };

    fn wanted(&self, list: &[K]) -> bool {
        self.first.wanted(list) && self.second.wanted(list)
    }

    fn is_barren(&self, list: &[K]) -> bool {
        self.first.is_barren(list) || self.second.is_barren(list)
    }
}
