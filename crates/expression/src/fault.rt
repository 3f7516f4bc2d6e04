ghost use Rattle.std.specs.Prelude.{◌≡◌};
ghost use Rattle.expression.specs.Faults.{refusal_of, span_of};
ghost use Rattle.expression.specs.declared.fault.ReadError.TheVariants as reading;

use event::refusal::Refusal;
use event::span::Span;
use std::alloc::AllocError;

/// Why a text is no expression.
#[derive(Clone, Copy, Debug, PartialEq, Eq)]
pub enum ExpressionFault {
    /// The first mark that cannot follow those before it, by its place and length, or the text's end.
    Mark(Span),
    /// Too many bytes, too many labels and dots, or brackets too deep.
    Size,
}

/// Why a text was not read: a fault, or want of memory.
#[derive(Clone, Copy, Debug, PartialEq, Eq)]
pub enum ReadError {
    Refused(ExpressionFault),
    Memory,
}

impl From<AllocError> for ReadError {
    ghost from_gives = { λ _ r. r ≡ reading.Memory };

    fn from(_error: AllocError) -> ReadError {
        ReadError::Memory
    }
}

impl From<ExpressionFault> for ReadError {
    ghost from_gives = { λ fault r. r ≡ reading.Refused fault };

    fn from(fault: ExpressionFault) -> ReadError {
        ReadError::Refused(fault)
    }
}

impl ExpressionFault {
    // The faults of all layers are asked by the same two methods.

    /// The refusal that this fault is.
    pub fn refusal(&self) -> Refusal
        ensures { result ≡ refusal_of self.now }
    {
        match self {
            ExpressionFault::Mark(_) => Refusal::Mark,
            ExpressionFault::Size => Refusal::Size,
        }
    }

    /// The place and the length of the mark at fault, if one is.
    pub fn span(&self) -> Option<Span>
        ensures { result ≡ span_of self.now }
    {
        match self {
            ExpressionFault::Mark(span) => Some(*span),
            ExpressionFault::Size => None,
        }
    }
}
