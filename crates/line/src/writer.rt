ghost use Rattle.std.specs.Prelude.{◌≡◌, ℕ, [], ◌∷◌, ◌*◌, ◌<◌, ◌≤◌, length};
ghost use Rattle.std.specs.List.{flat_map};
ghost use Rattle.event.specs.Rows.{written, laid};
ghost use Rattle.line.specs.Pieces.{spaced, parted, piece_text, line_text, left};

use crate::piece::Piece;
use crate::put::put_line;
use event::decimal::decimal_length;
use event::kind::Kind;
use event::refusal::Refusal;

// What labels, each with a space before it, leave of a room, if they fit.
fn after_others<K: Kind>(room: usize, events: &[K]) -> Option<usize>
    ensures { result ≡ left room (length (flat_map (spaced K.Kind.label) events.now)) }
{
    let mut rest = room;
    for event in events {
        rest = rest.checked_sub(1)?.checked_sub(event.label_length())?;
    }
    Some(rest)
}

// What labels parted by spaces leave of a room, if they fit.
fn after_labels<K: Kind>(room: usize, events: &[K]) -> Option<usize>
    ensures { result ≡ left room (length (parted K.Kind.label events.now)) }
{
    let Some((first, others)) = events.split_first() else {
        return Some(room);
    };
    after_others(room.checked_sub(first.label_length())?, others)
}

impl<K: Kind> Piece<'_, K> {
    // What the piece leaves of a room, if it fits.
    fn after(&self, room: usize) -> Option<usize>
        ensures { result ≡ left room (length (piece_text K.Kind.label self.now)) }
    {
        match self {
            Piece::Word(word) => room.checked_sub(word.text().len()),
            Piece::Number(n) => room.checked_sub(decimal_length(*n)),
            Piece::Bytes(bytes) => room.checked_sub(2 * bytes.len()),
            Piece::Labels(events) => after_labels(room, *events),
        }
    }
}

// What a line leaves of a room, if it fits.
fn after_line<K: Kind>(room: usize, pieces: &[Piece<'_, K>]) -> Option<usize>
    ensures { result ≡ left room (length (line_text K.Kind.label pieces.now)) }
{
    let mut rest = room;
    for piece in pieces {
        rest = piece.after(rest)?;
    }
    Some(rest)
}

/// Writes a line at a row's front and returns its length; where it has no room, ROOM, and the row stays.
pub fn write_line<K: Kind>(pieces: &[Piece<'_, K>], row: &mut [u8]) -> Result<usize, Refusal>
    ensures answer { result ≡ written (length (line_text K.Kind.label pieces.now)) (length row.old) }
    ensures after { row.new ≡ laid (line_text K.Kind.label pieces.now) row.old }
{
    after_line(row.len(), pieces).ok_or(Refusal::Room)?;
    Ok(put_line(pieces, row))
}
