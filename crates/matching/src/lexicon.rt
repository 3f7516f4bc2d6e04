ghost use Rattle.std.specs.Prelude.{◌≡◌};
ghost use Rattle.matching.specs.Lexicons.{rises_strictly, LexiconStands};

use event::kind::Kind;
use event::order::Order;

/// The most events of a lexicon.
pub const MOST_LEXICON: usize = 1024;

/// Whether a lexicon rises strictly: each event is before the next.
pub fn rises_strictly<K: Kind>(lexicon: &[K]) -> bool
    ensures { result ≡ rises_strictly K.Kind.order lexicon.now }
{
    lexicon.is_sorted_by(|event, next| event.compare(next) == Order::Before)
}

/// A lexicon rises strictly exactly if every event is before every later one.
pub fn lexicon_stands<K: Kind>() -> u8
    ensures { LexiconStands K.Kind.order }
{
    0
}
