ghost use Rattle.std.specs.Prelude.{◌≡◌};
ghost use Rattle.event.specs.Refusals.{number_of};

/// Why a call was refused. The numbers are part of the product's formats.
#[derive(Clone, Copy, Debug, PartialEq, Eq)]
pub enum Refusal {
    /// The session was never opened.
    Closed = 1,
    /// There is no latest pattern to speak of.
    Nothing = 2,
    /// A threshold outside its range.
    Threshold = 3,
    /// A length outside its range.
    Length = 4,
    /// A count above its limit.
    Size = 5,
    /// An offset is wrong, or there are none.
    Offsets = 6,
    /// A lexicon that does not rise strictly.
    Lexicon = 7,
    /// A row that is too short.
    Room = 8,
    /// Fewer bytes than the counts give.
    Short = 9,
    /// More bytes than the counts give.
    Over = 10,
    /// Another kind of event.
    Kind = 11,
    /// Bytes that stand for no event.
    Event = 12,
    /// Bytes that are no label, or a mark that does not fit.
    Mark = 13,
    /// A query line of another form.
    Query = 14,
    /// Too much input.
    Input = 15,
}

impl Refusal {
    /// The refusal's number.
    pub fn number(self) -> u8
        ensures { result ≡ number_of self }
    {
        self as u8
    }
}
