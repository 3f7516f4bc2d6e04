ghost use Rattle.std.specs.Prelude.{◌≡◌, None};
ghost use Rattle.query.specs.declared.line.QueryFault.TheVariants as query;
ghost use Rattle.report.specs.declared.fault.ListerFault.TheVariants as lister;
ghost use Rattle.reply.specs.declared.contents.ListError.TheVariants as reply;
ghost use Rattle.reply.specs.Listed.{Listed, then_session};
ghost use Rattle.reply.specs.Outcomes.{Outcome};

use crate::rows::Rows;
use bundle::fault::BundleFault;
use event::kind::Kind;
use event::refusal::Refusal;
use query::line::{Query, QueryFault};
use report::fault::ListerFault;
use report::output::Page;
use std::alloc::{AllocError, Global};

/// Why there is no list: a refusal, or want of memory.
#[derive(Clone, Copy, Debug, PartialEq, Eq)]
pub enum ListError {
    Refused(ListerFault),
    Memory,
}

impl From<ListerFault> for ListError {
    ghost from_gives = { λ e r. r ≡ reply.Refused e };

    fn from(fault: ListerFault) -> ListError {
        ListError::Refused(fault)
    }
}

// One for each fault below, and not one for all that become a fault: that could meet the one for memory.
impl From<QueryFault> for ListError {
    ghost from_gives = { λ e r. r ≡ reply.Refused (lister.Query e) };

    fn from(query: QueryFault) -> ListError {
        ListError::Refused(query.into())
    }
}

impl From<BundleFault> for ListError {
    ghost from_gives = { λ e r. r ≡ reply.Refused (lister.Bundle e) };

    fn from(bundle: BundleFault) -> ListError {
        ListError::Refused(bundle.into())
    }
}

impl From<Refusal> for ListError {
    ghost from_gives = { λ e r. r ≡ reply.Refused (lister.Session e) };

    fn from(refusal: Refusal) -> ListError {
        ListError::Refused(refusal.into())
    }
}

impl From<AllocError> for ListError {
    ghost from_gives = { λ _ r. r ≡ reply.Memory };

    fn from(_error: AllocError) -> ListError {
        ListError::Memory
    }
}

/// What is listed of a query and a bundle, of whichever kind its events are.
pub trait Contents {
    // Why it is refused, if it is, and its lines.
    ghost listed: { Listed };

    // The heap goes beside the page: a page is seen as its text alone, so a call that handed out its heap could promise nothing of it.

    /// Appends the lines to a page; a refused list leaves it. The session of a list is made with the blank event, any one.
    fn append<K: Kind>(
        heap: Global,
        query: &Query,
        rows: &Rows<'_, K>,
        blank: K,
        page: &mut Page,
    ) -> Result<(), ListError>
        ensures { Outcome (then_session None (listed.refusal K.Kind.order query.now rows.now.tapes.offsets.now rows.now.tapes.events.now rows.now.lexicon.now)) page.old (listed.lines K.Kind.order K.Kind.label query.now rows.now.tapes.offsets.now rows.now.tapes.events.now rows.now.lexicon.now) page.new result };
}
