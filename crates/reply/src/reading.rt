ghost use Rattle.std.specs.Prelude.{◌≡◌};
ghost use Rattle.reply.specs.Outcomes.{Outcome};
ghost use Rattle.reply.specs.Replies.{reading_fault, kind_text};

use crate::contents::{Contents, ListError};
use crate::rows::Rows;
use bundle::reader::{MOST_EVENTS, MOST_TAPES, read_bundle};
use bundle::tape::Tapes;
use event::kind::Kind;
use matching::learning::learn;
use matching::lexicon::MOST_LEXICON;
use query::line::Query;
use report::output::Page;
use std::alloc::Global;

/// Appends what is listed of a query and a bundle file of a kind, read into rows that have room for every bundle and lexicon.
pub(crate) fn append_file<C: Contents, K: Kind>(
    heap: Global,
    query: &Query,
    file: &[u8],
    blank: K,
    page: &mut Page,
) -> Result<(), ListError>
    ensures { Outcome (reading_fault C.listed K.Kind.NUMBER K.Kind.WIDTH K.Kind.stands K.Kind.order query.now file.now) page.old (kind_text C.listed K.Kind.WIDTH K.Kind.stands K.Kind.order K.Kind.label query.now file.now) page.new result }
{
    // rows with their counts beside them: reading and learning write at a row's front
    let mut offsets = vec![in heap; 0u32; MOST_TAPES + 1]?;
    let mut events = vec![in heap; blank; MOST_EVENTS]?;
    let mut lexicon = vec![in heap; blank; MOST_LEXICON]?;
    let (tapes, count) = read_bundle(file, &mut offsets, &mut events)?;
    let events = &events[..count];
    let words = learn(events, &mut lexicon)?;
    let rows = Rows {
        tapes: Tapes {
            events,
            offsets: &offsets[..tapes + 1],
        },
        lexicon: &lexicon[..words],
    };
    C::append(heap, query, &rows, blank, page)
}
