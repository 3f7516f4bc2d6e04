ghost use Rattle.std.specs.Prelude.{◌≡◌, ◌-◌, [], ◌∷◌, ◌++◌, length, OnOk};
ghost use Rattle.matching.specs.Picks.{picked, Within};
ghost use Rattle.law.specs.Transcripts.{Opened};
ghost use Rattle.session.specs.Sessions.{opening_of, Stands};
ghost use Rattle.report.specs.Texts.{head_text, pattern_text};
ghost use Rattle.catalog.specs.Replies.{session_text};
ghost use Rattle.catalog.specs.Readings.{ReadToEnd};

use event::kind::Kind;
use event::scanner::Scanner;
use filter::all::All;
use query::line::Query;
use report::output::{Line, Page};
use session::opening::Opening;
use session::session::Session;
use std::alloc::{AllocError, Global};
use trail::level::MOST_LENGTH;

// The events at some places of a lexicon, in the place of what was there.
fn spell<K: Kind>(lexicon: &[K], places: &[u16], pattern: &mut Vec<K>) -> Result<(), AllocError>
    requires { Within places.now (length lexicon.now) }
    ensures { OnOk result (pattern.new.items ≡ picked lexicon.now places.now) }
{
    pattern.clear();
    for place in places {
        pattern.push(lexicon[usize::from(*place)])?;
    }
    Ok(())
}

// Appends the line of a pattern that is given by its places in a lexicon.
fn append_pattern<K: Kind>(
    lexicon: &[K],
    places: &[u16],
    support: u32,
    pattern: &mut Vec<K>,
    page: &mut Page,
) -> Result<(), AllocError>
    requires { Within places.now (length lexicon.now) }
    ensures { OnOk result (page.new ≡ page.old ++ pattern_text K.Kind.label support (picked lexicon.now places.now)) }
{
    spell(lexicon, places, pattern)?;
    page.append(&Line::Pattern {
        support,
        pattern: pattern.as_slice(),
    })
}

// Appends each pattern that a session, just opened, hands out until END.
fn append_patterns<'a, K: Kind>(
    heap: Global,
    opening: &Opening<'a, K>,
    session: &mut Session<'a, K>,
    page: &mut Page,
) -> Result<(), AllocError>
    requires { Stands K.Kind.order session.old (Opened (opening_of opening.now) ∷ []) }
    ensures { OnOk result (ReadToEnd K.Kind.order K.Kind.label (opening_of opening.now) session.new page.old page.new) }
{
    let mut places = [0; MOST_LENGTH];
    let mut pattern = Vec::new(heap);
    // the session is open and no pattern is longer than the row, so this is not refused
    while let Ok(Some((length, support))) = session.next(&All, &mut places) {
        append_pattern(
            opening.lexicon,
            &places[0..length],
            support,
            &mut pattern,
            page,
        )?;
    }
    Ok(())
}

/// Appends the list of a session that was just opened: what was read, the patterns, and how many they are.
pub(crate) fn append_opened<'a, K: Kind>(
    heap: Global,
    query: &Query,
    opening: &Opening<'a, K>,
    session: &mut Session<'a, K>,
    page: &mut Page,
) -> Result<(), AllocError>
    requires { Stands K.Kind.order session.old (Opened (opening_of opening.now) ∷ []) }
    ensures { OnOk result (page.new ≡ page.old ++ (head_text (length (opening_of opening.now).offsets - 1) (length (opening_of opening.now).events) query.now.threshold query.now.longest ++ session_text K.Kind.order K.Kind.label (opening_of opening.now))) }
{
    page.append_head(&opening.tapes, query)?;
    append_patterns(heap, opening, session, page)?;
    // the session stands at END, so this is not refused, and no refusal is handed up as one more way to end
    let Ok((_, count)) = session.tell() else {
        return Ok(());
    };
    let end: Line<'static, Scanner> = Line::End { count };
    page.append(&end)
}
