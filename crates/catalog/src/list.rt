ghost use Rattle.std.specs.Prelude.{◌≡◌, is_some, IfOk};
ghost use Rattle.catalog.specs.Replies.{patterns, fault_in, reply_text};

use crate::patterns::append_opened;
use event::kind::Kind;
use query::line::Query;
use reply::answer;
use reply::answer::Reply;
use reply::contents::{Contents, ListError};
use reply::rows::Rows;
use report::output::Page;
use session::opening::Opening;
use session::session::Session;
use std::alloc::{AllocError, Global};

/// The list of all patterns whose support reaches the threshold.
pub struct Patterns;

impl Contents for Patterns {
    ghost listed = { patterns };

    fn append<K: Kind>(
        heap: Global,
        query: &Query,
        rows: &Rows<'_, K>,
        blank: K,
        page: &mut Page,
    ) -> Result<(), ListError> {
        let opening = Opening {
            tapes: rows.tapes,
            lexicon: rows.lexicon,
            threshold: query.threshold,
            longest: query.longest,
        };
        let mut session = Session::new(blank, heap)?;
        session.open(opening)?;
        append_opened(heap, query, &opening, &mut session, page)?;
        Ok(())
    }
}

/// The answer to an input: its list, or the line of the refusal.
// A function of its own beside the generic one: this promise names its list.
pub fn reply_to(heap: Global, input: &[u8]) -> Result<Reply, AllocError>
    ensures text { IfOk result (λ x. x.text.items ≡ reply_text input.now) }
    ensures refused { IfOk result (λ x. x.refused ≡ is_some (fault_in input.now)) }
{
    answer::reply_to::<Patterns>(heap, input)
}
