ghost use Rattle.std.specs.Prelude.{◌≡◌};
ghost use Rattle.expression.specs.Cuts.{spans_in};

use crate::cut::cut;
use crate::fault::{ExpressionFault, ReadError};
use crate::mark::{leaf_of, mark_of};
use event::kind::Kind;
use event::span::{Span, part};
use grammar::mark::{Mark, ReadFault};
use grammar::read::read_marks;
use regular::label::Label;
use regular::table::Rooted;
use std::alloc::{AllocError, Global};

// A text, cut into marks, with their places.
#[derive(Drop)]
pub(crate) struct CutText<'t> {
    pub(crate) text: &'t [u8],
    spans: Vec<Span>,
    ghost cut: { spans.items ≡ spans_in text.now },
}

impl CutText<'_> {
    ghost use Rattle.std.specs.Prelude.{IfOk, MatchResult};
    ghost use Rattle.grammar.specs.declared.mark.ReadFault.{ReadFault};
    ghost use Rattle.grammar.specs.Readings.{Whole, NotWhole};
    ghost use Rattle.expression.specs.Faults.{span_at, error_at};
    ghost use Rattle.expression.specs.Marks.{marks_in, leaves_in};

    // Cuts a text.
    pub(crate) fn new(text: &[u8], heap: Global) -> Result<CutText<'_>, AllocError>
        ensures { IfOk result (λ cut. cut.text.now ≡ text.now) }
    {
        let spans = cut(text, heap)?;
        Ok(CutText { text, spans })
    }

    // The marks.
    fn marks<K: Kind>(&self, heap: Global) -> Result<Vec<Mark>, AllocError>
        ensures { IfOk result (λ marks. marks.items ≡ marks_in K.Kind.labelled self.now.text.now) }
    {
        self.spans
            .iter()
            .map(|span| mark_of::<K>(part(self.text, *span)))
            .collect(heap)
    }

    // What stands at the leaves.
    pub(crate) fn leaves<K: Kind>(&self, heap: Global) -> Result<Vec<Label<K>>, AllocError>
        ensures { IfOk result (λ leaves. leaves.items ≡ leaves_in K.Kind.labelled self.now.text.now) }
    {
        self.spans
            .iter()
            .filter_map(|span| leaf_of::<K>(part(self.text, *span)))
            .collect(heap)
    }

    // The place of the mark with a number, or of the end behind the last.
    fn span(&self, number: usize) -> Span
        ensures { result ≡ span_at self.now.text.now number }
    {
        self.spans.get(number).copied().unwrap_or(Span {
            start: self.text.len(),
            length: 0,
        })
    }

    // What a fault in the marks is for the text.
    fn error(&self, fault: ReadFault) -> ReadError
        ensures { result ≡ error_at self.now.text.now fault }
    {
        match fault {
            ReadFault::Mark(number) => ExpressionFault::Mark(self.span(number)).into(),
            ReadFault::Size => ExpressionFault::Size.into(),
            ReadFault::Memory => ReadError::Memory,
        }
    }

    // Reads the marks, and says of a fault what it is for the text.
    pub(crate) fn read<K: Kind>(&self, heap: Global) -> Result<Rooted, ReadError>
        ensures { MatchResult result (λ r. Whole (marks_in K.Kind.labelled self.now.text.now) r.table.nodes.items r.root) (λ e. (f : ReadFault) × NotWhole (marks_in K.Kind.labelled self.now.text.now) f × (e ≡ error_at self.now.text.now f)) }
    {
        let marks = self.marks::<K>(heap)?;
        // By a match: of a closure over `self`, `map_err` tells a proof nothing.
        match read_marks(&marks, heap) {
            Ok(rooted) => Ok(rooted),
            Err(fault) => Err(self.error(fault)),
        }
    }
}
