ghost use Rattle.std.specs.Prelude.{◌≡◌, is_some, IfOk};
ghost use Rattle.listing.specs.Replies.{supports, fault_in, reply_text, OnlyLearning};

use event::kind::Kind;
use matching::support::support_of;
use query::line::Query;
use reply::answer;
use reply::answer::Reply;
use reply::contents::{Contents, ListError};
use reply::rows::Rows;
use report::output::{Line, Page};
use std::alloc::{AllocError, Global};

/// The list of each event of a lexicon with its support.
pub struct Supports;

impl Contents for Supports {
    ghost listed = { supports };

    fn append<K: Kind>(
        _heap: Global,
        query: &Query,
        rows: &Rows<'_, K>,
        _blank: K,
        page: &mut Page,
    ) -> Result<(), ListError> {
        page.append_head(&rows.tapes, query)?;
        for pattern in rows.lexicon.chunks(1) {
            let support = support_of(&rows.tapes, pattern)?;
            page.append(&Line::Pattern { support, pattern })?;
        }
        Ok(())
    }
}

/// The answer to an input: its list, or the line of the refusal.
// A function of its own beside the generic one: this promise names its list.
pub fn reply_to(heap: Global, input: &[u8]) -> Result<Reply, AllocError>
    ensures text { IfOk result (λ x. x.text.items ≡ reply_text input.now) }
    ensures refused { IfOk result (λ x. x.refused ≡ is_some (fault_in input.now)) }
{
    answer::reply_to::<Supports>(heap, input)
}

/// A bundle whose lexicon was learned is not refused.
pub fn only_learning<K: Kind>() -> u8
    ensures { OnlyLearning K.Kind.NUMBER K.Kind.WIDTH K.Kind.stands K.Kind.order }
{
    0
}
