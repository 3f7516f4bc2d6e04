ghost use Rattle.std.specs.Prelude.{◌≡◌};
ghost use Rattle.line.specs.Pieces.{word_text};

/// A word of the lister's lines, with the spaces around it.
#[derive(Clone, Copy)]
pub enum Word {
    Tapes,
    Events,
    Threshold,
    Length,
    Refused,
    Query,
    Bundle,
    End,
    Space,
    Dash,
    LineFeed,
}

/// A piece of a line.
#[derive(Clone, Copy)]
pub enum Piece<'a, K> {
    /// A word.
    Word(Word),
    /// A number in decimal.
    Number(u64),
    /// Bytes as pairs of upper-case hexadecimal digits.
    Bytes(&'a [u8]),
    /// Labels of events, parted by spaces.
    Labels(&'a [K]),
}

impl Word {
    // The word's text, as bytes: a `Display` would print through a formatter what is written into a row.
    pub(crate) fn text(self) -> &'static [u8]
        ensures { result.now ≡ word_text self }
    {
        match self {
            Word::Tapes => b"tapes ",
            Word::Events => b" events ",
            Word::Threshold => b" threshold ",
            Word::Length => b" length ",
            Word::Refused => b"refused ",
            Word::Query => b" query ",
            Word::Bundle => b" bundle ",
            Word::End => b"end ",
            Word::Space => b" ",
            Word::Dash => b"-",
            Word::LineFeed => b"\n",
        }
    }
}
