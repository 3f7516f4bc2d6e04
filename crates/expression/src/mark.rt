ghost use Rattle.std.specs.Prelude.{◌≡◌};
ghost use Rattle.expression.specs.Marks.{sign_of, mark_of, leaf_of};

use event::kind::Kind;
use grammar::mark::Mark;
use regular::label::Label;

// The mark that a byte is alone; marks are told by their characters.
fn sign(byte: u8) -> Mark
    ensures { result ≡ sign_of byte }
{
    match byte as char {
        '.' => Mark::Leaf,
        '(' => Mark::Open,
        ')' => Mark::Close,
        '|' => Mark::Bar,
        '*' => Mark::Star,
        '+' => Mark::Plus,
        '?' => Mark::Maybe,
        _ => Mark::Other,
    }
}

// The mark of some bytes: a leaf where something stands at it, or else what the first byte is alone.
pub(crate) fn mark_of<K: Kind>(bytes: &[u8]) -> Mark
    ensures { result ≡ mark_of K.Kind.labelled bytes.now }
{
    match (leaf_of::<K>(bytes), bytes) {
        (Some(_), _) => Mark::Leaf,
        (None, [first, ..]) => sign(*first),
        (None, []) => Mark::Other,
    }
}

// What stands at the leaf that some bytes are.
pub(crate) fn leaf_of<K: Kind>(bytes: &[u8]) -> Option<Label<K>>
    ensures { result ≡ leaf_of K.Kind.labelled bytes.now }
{
    match bytes {
        [b'0'..=b'9', ..] => K::read_label(bytes).ok().map(Label::Event),
        [b'.', ..] => Some(Label::Any),
        _ => None,
    }
}
