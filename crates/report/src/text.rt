ghost use Rattle.std.specs.Prelude.{◌≡◌, length};
ghost use Rattle.event.specs.Rows.{written, laid};
ghost use Rattle.report.specs.Texts.{head_text, pattern_text, end_text, shown, refused_text};

use crate::fault::{ListerFault, bytes_at_fault};
use event::kind::Kind;
use event::refusal::Refusal;
use event::scanner::Scanner;
use line::piece::{Piece, Word};
use line::writer::write_line;
use query::line::Query;

// Each of these writes a line with its line feed at a row's front and returns its length; where it has no room, ROOM, and the row stays.

/// The line of what was read: the counts of the bundle, and the numbers of the query.
pub fn write_head(
    tapes: usize,
    events: usize,
    query: &Query,
    row: &mut [u8],
) -> Result<usize, Refusal>
    ensures answer { result ≡ written (length (head_text tapes events query.now.threshold query.now.longest)) (length row.old) }
    ensures after { row.new ≡ laid (head_text tapes events query.now.threshold query.now.longest) row.old }
{
    let pieces = [
        Piece::Word(Word::Tapes),
        Piece::Number(tapes as u64),
        Piece::Word(Word::Events),
        Piece::Number(events as u64),
        Piece::Word(Word::Threshold),
        Piece::Number(query.threshold.into()),
        Piece::Word(Word::Length),
        Piece::Number(query.longest.into()),
        Piece::Word(Word::LineFeed),
    ];
    write_line::<Scanner>(&pieces, row)
}

/// The line of a pattern: its support, and its labels parted by spaces.
pub fn write_pattern<K: Kind>(support: u32, pattern: &[K], row: &mut [u8]) -> Result<usize, Refusal>
    ensures answer { result ≡ written (length (pattern_text K.Kind.label support pattern.now)) (length row.old) }
    ensures after { row.new ≡ laid (pattern_text K.Kind.label support pattern.now) row.old }
{
    let pieces = [
        Piece::Number(support.into()),
        Piece::Word(Word::Space),
        Piece::Labels(pattern),
        Piece::Word(Word::LineFeed),
    ];
    write_line(&pieces, row)
}

/// The line behind the last pattern: how many there were.
pub fn write_end(count: u32, row: &mut [u8]) -> Result<usize, Refusal>
    ensures answer { result ≡ written (length (end_text count)) (length row.old) }
    ensures after { row.new ≡ laid (end_text count) row.old }
{
    let pieces = [
        Piece::Word(Word::End),
        Piece::Number(count.into()),
        Piece::Word(Word::LineFeed),
    ];
    write_line::<Scanner>(&pieces, row)
}

/// The line of a refusal: its number, the input at fault, the place there, and the bytes at fault.
pub fn write_refused(
    fault: &ListerFault,
    query: &[u8],
    bundle: &[u8],
    row: &mut [u8],
) -> Result<usize, Refusal>
    ensures answer { result ≡ written (length (refused_text fault.now query.now bundle.now)) (length row.old) }
    ensures after { row.new ≡ laid (refused_text fault.now query.now bundle.now) row.old }
{
    let place = fault.place();
    let bytes = bytes_at_fault(fault, query, bundle);
    let shown = if bytes.is_empty() {
        Piece::Word(Word::Dash)
    } else {
        Piece::Bytes(bytes)
    };
    let pieces = [
        Piece::Word(Word::Refused),
        Piece::Number(fault.refusal().number().into()),
        Piece::Word(fault.source().into()),
        Piece::Number(place.start as u64),
        Piece::Word(Word::Space),
        shown,
        Piece::Word(Word::LineFeed),
    ];
    write_line::<Scanner>(&pieces, row)
}
