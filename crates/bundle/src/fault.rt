ghost use Rattle.std.specs.Prelude.{◌≡◌};
ghost use Rattle.bundle.specs.Faults.{refusal_of, span_of};

use event::refusal::Refusal;
use event::span::Span;

/// Why a file is no bundle, or could not be read into its rows.
#[derive(Clone, Copy, Debug, PartialEq, Eq)]
pub enum BundleFault {
    /// Fewer bytes than a header, or than the counts give.
    Short,
    /// More bytes than the counts give.
    Over,
    /// Another kind's number.
    Kind,
    /// Too many tapes or events.
    Size,
    /// The lowest wrong offset, and its bytes.
    Offsets { index: usize, span: Span },
    /// The lowest event whose bytes are outside the kind, and these bytes.
    Event { index: usize, span: Span },
    /// A row that is too short.
    Room,
}

impl BundleFault {
    // The faults of all layers are asked by the same two methods.

    /// The refusal that this fault is.
    pub fn refusal(&self) -> Refusal
        ensures { result ≡ refusal_of self.now }
    {
        match self {
            BundleFault::Short => Refusal::Short,
            BundleFault::Over => Refusal::Over,
            BundleFault::Kind => Refusal::Kind,
            BundleFault::Size => Refusal::Size,
            BundleFault::Offsets { .. } => Refusal::Offsets,
            BundleFault::Event { .. } => Refusal::Event,
            BundleFault::Room => Refusal::Room,
        }
    }

    /// Where in the file the bytes at fault are, if some are.
    pub fn span(&self) -> Option<Span>
        ensures { result ≡ span_of self.now }
    {
        match self {
            BundleFault::Kind => Some(Span {
                start: 0,
                length: 2,
            }),
            BundleFault::Offsets { span, .. } => Some(*span),
            BundleFault::Event { span, .. } => Some(*span),
            _ => None,
        }
    }
}
