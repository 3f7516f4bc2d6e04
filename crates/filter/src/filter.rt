ghost use Rattle.std.specs.Prelude.{◌≡◌, Bool, List};
ghost use Rattle.filter.specs.Filters.{BarrenStands};

use event::kind::Kind;

/// A filter wants some lists of events. It answers of any list, the empty one too, and nothing changes.
pub trait Filter<K: Kind> {
    // Whether a list is wanted: the filter's meaning.
    ghost wants: { Self → List K → Bool };

    // Whether a list is barren.
    ghost barren: { Self → List K → Bool };

    // The law, proved by each impl: no extension of a barren list is wanted.
    ghost fruitless: { BarrenStands wants barren };

    /// Whether a list is wanted.
    fn wanted(&self, list: &[K]) -> bool
        ensures { result ≡ wants self.now list.now };

    /// Whether a list is barren: then no longer list that begins with it is wanted.
    fn is_barren(&self, list: &[K]) -> bool
        ensures { result ≡ barren self.now list.now };
}

/// Of every filter, no extension of a barren list is wanted.
pub fn barren_stands<K: Kind, F: Filter<K>>() -> u8
    ensures { BarrenStands F.Filter.wants F.Filter.barren }
{
    0
}
