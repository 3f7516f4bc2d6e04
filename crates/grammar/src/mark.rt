ghost use Rattle.std.specs.Prelude.{◌≡◌};
ghost use Rattle.grammar.specs.declared.mark.ReadFault.TheVariants.{Memory};

use std::alloc::AllocFailed;

/// A mark of an expression.
#[derive(Clone, Copy, Debug, PartialEq, Eq)]
pub enum Mark {
    /// A label or a dot.
    Leaf,
    /// A bracket that opens.
    Open,
    /// A bracket that closes.
    Close,
    /// Parts the terms of an expression.
    Bar,
    /// Any number of times.
    Star,
    /// Once or more.
    Plus,
    /// Once or not at all.
    Maybe,
    /// Anything else, which fits nowhere; a mark of its own and no `None`, as a fault counts the marks.
    Other,
}

/// Why marks are not read.
#[derive(Clone, Copy, Debug, PartialEq, Eq)]
pub enum ReadFault {
    /// The mark with this number does not fit; the number of marks where the end does not.
    Mark(usize),
    /// More than 60 leaves, or more than 16 brackets open.
    Size,
    /// There is not enough memory for the table.
    Memory,
}

impl<T: Drop> From<AllocFailed<T>> for ReadFault {
    ghost from_gives = { λ _ r. r ≡ Memory };

    fn from(_e: AllocFailed<T>) -> ReadFault {
        ReadFault::Memory
    }
}
