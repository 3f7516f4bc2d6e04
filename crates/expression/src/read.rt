ghost use Rattle.std.specs.Prelude.{MatchResult};
ghost use Rattle.expression.specs.Faults.{ReadAs, NotRead};

use crate::fault::{ExpressionFault, ReadError};
use crate::matches::Matches;
use crate::text::CutText;
use event::kind::Kind;
use regular::expression::Expression;
use std::alloc::Global;

/// The most bytes of a text.
pub const MOST_TEXT: usize = 256;

/// Reads a text as an expression over the labels of a kind.
pub fn read_expression<K: Kind>(text: &[u8], heap: Global) -> Result<Matches<K>, ReadError>
    ensures { MatchResult result (λ m. ReadAs K.Kind.labelled text.now m) (λ e. NotRead K.Kind.labelled text.now e) }
{
    if text.len() > MOST_TEXT {
        return Err(ExpressionFault::Size.into());
    }
    let cut = CutText::new(text, heap)?;
    let rooted = cut.read::<K>(heap)?;
    let leaves = cut.leaves::<K>(heap)?;
    let expression = Expression::new(leaves, rooted, heap)?;
    Ok(Matches { expression })
}
