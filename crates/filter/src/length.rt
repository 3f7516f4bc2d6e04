ghost use Rattle.std.specs.Prelude.{◌≡◌, ℕ, ◌≤◌};
ghost use Rattle.std.specs.Result.{result_map_both};
ghost use Rattle.filter.specs.Filters.{limits, length_wants, length_barren};
ghost use Rattle.filter.specs.Standing.{length_stands};

use crate::filter::Filter;
use event::kind::Kind;
use event::refusal::Refusal;

/// The most events that a length filter may allow.
pub const MOST_EVENTS: usize = 16;

/// Wants the lists with the fewest to the most events; a list with the most or more is barren.
#[derive(Clone, Copy)]
pub struct Length {
    fewest: usize,
    most: usize,
    ghost some: { 1 ≤ fewest },
    ghost ordered: { fewest ≤ most },
    ghost few: { most ≤ 16 },
}

impl Length {
    /// The filter with these limits, where 1 ≤ fewest ≤ most ≤ 16; else LENGTH.
    pub fn new(fewest: usize, most: usize) -> Result<Length, Refusal>
        ensures { result_map_both (λ l. (l.fewest, l.most)) (λ e. e) result ≡ limits fewest most }
    {
        if !(1..=most).contains(&fewest) || MOST_EVENTS < most {
            return Err(Refusal::Length);
        }
        Ok(Length { fewest, most })
    }
}

impl<K: Kind> Filter<K> for Length {
    ghost wants = { λ f. length_wants f.fewest f.most };

    ghost barren = { λ f. length_barren f.most };

    ghost fruitless = { λ f. length_stands f.fewest f.most };

    fn wanted(&self, list: &[K]) -> bool {
        (self.fewest..=self.most).contains(&list.len())
    }

    fn is_barren(&self, list: &[K]) -> bool {
        self.most <= list.len()
    }
}
