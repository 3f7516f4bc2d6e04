ghost use Rattle.std.specs.Prelude.{◌≡◌};
ghost use Rattle.report.specs.Faults.{refusal_of, refused_source, source_of, span_of, place_of, bytes_at_fault};
ghost use Rattle.report.specs.Texts.{source_text};
ghost use Rattle.line.specs.Pieces.{word_text};
ghost use Rattle.report.specs.declared.fault.ListerFault.TheVariants as lister;

use bundle::fault::BundleFault;
use event::refusal::Refusal;
use event::span::{Span, part};
use line::piece::Word;
use query::line::QueryFault;

/// Why the lister refuses: the fault of the layer below, whole.
#[derive(Clone, Copy, Debug, PartialEq, Eq)]
pub enum ListerFault {
    Query(QueryFault),
    Bundle(BundleFault),
    /// A refusal of learning the lexicon or of opening the session.
    Session(Refusal),
}

/// The part of the input that a fault speaks of.
#[derive(Clone, Copy, Debug, PartialEq, Eq)]
pub enum Source {
    Query,
    Bundle,
}

impl From<QueryFault> for ListerFault {
    ghost from_gives = { λ e r. r ≡ lister.Query e };

    fn from(fault: QueryFault) -> ListerFault {
        ListerFault::Query(fault)
    }
}

impl From<BundleFault> for ListerFault {
    ghost from_gives = { λ e r. r ≡ lister.Bundle e };

    fn from(fault: BundleFault) -> ListerFault {
        ListerFault::Bundle(fault)
    }
}

impl From<Refusal> for ListerFault {
    ghost from_gives = { λ e r. r ≡ lister.Session e };

    fn from(refusal: Refusal) -> ListerFault {
        ListerFault::Session(refusal)
    }
}

impl From<Source> for Word {
    ghost from_gives = { λ s r. word_text r ≡ source_text s };

    // The word for the input at fault.
    fn from(source: Source) -> Word {
        match source {
            Source::Query => Word::Query,
            Source::Bundle => Word::Bundle,
        }
    }
}

// The input that a refusal speaks of.
fn refused_source(refusal: Refusal) -> Source
    ensures { result ≡ refused_source refusal }
{
    match refusal {
        Refusal::Threshold | Refusal::Length | Refusal::Mark | Refusal::Query | Refusal::Input =>
            Source::Query,
        _ => Source::Bundle,
    }
}

impl ListerFault {
    // The faults of the query and of the bundle have these two methods too, and no trait: nothing is generic over a fault.

    /// The refusal that this fault is.
    pub fn refusal(&self) -> Refusal
        ensures { result ≡ refusal_of self.now }
    {
        match self {
            ListerFault::Query(fault) => fault.refusal(),
            ListerFault::Bundle(fault) => fault.refusal(),
            ListerFault::Session(refusal) => *refusal,
        }
    }

    /// Whether the query line or the bundle is at fault.
    pub fn source(&self) -> Source
        ensures { result ≡ source_of self.now }
    {
        match self {
            ListerFault::Query(_) => Source::Query,
            ListerFault::Bundle(_) => Source::Bundle,
            ListerFault::Session(refusal) => refused_source(*refusal),
        }
    }

    /// Where there the bytes at fault are, if some are.
    pub fn span(&self) -> Option<Span>
        ensures { result ≡ span_of self.now }
    {
        match self {
            ListerFault::Query(fault) => fault.span(),
            ListerFault::Bundle(fault) => fault.span(),
            ListerFault::Session(_) => None,
        }
    }

    // The place that is written: of the bytes at fault, or 0.
    pub(crate) fn place(&self) -> Span
        ensures { result ≡ place_of self.now }
    {
        self.span().unwrap_or(Span {
            start: 0,
            length: 0,
        })
    }
}

/// The bytes at fault, as a part of the query line or of the bundle.
pub fn bytes_at_fault<'a>(fault: &ListerFault, query: &'a [u8], bundle: &'a [u8]) -> &'a [u8]
    ensures { result.now ≡ bytes_at_fault fault.now query.now bundle.now }
{
    // both inputs are lent, and the fault decides which of them the part comes from
    match fault.source() {
        Source::Query => part(query, fault.place()),
        Source::Bundle => part(bundle, fault.place()),
    }
}
