ghost use Rattle.std.specs.Prelude.{◌≡◌, ℕ, [], ◌∷◌, ◌*◌, ◌<◌, ◌≤◌, length, decimal};
ghost use Rattle.std.specs.List.{flat_map};
ghost use Rattle.event.specs.Rows.{laid};
ghost use Rattle.line.specs.Pieces.{hex_digit, hex_pair, spaced, parted, piece_text, line_text};

use crate::piece::Piece;
use event::decimal::write_decimal;
use event::kind::Kind;

// Each of these puts a text at the front of a row that has room for it, and returns its length.

fn put_bytes(bytes: &[u8], row: &mut [u8]) -> usize
    requires { length bytes.now ≤ length row.old }
    ensures value { result ≡ length bytes.now }
    ensures after { row.new ≡ laid bytes.now row.old }
{
    row[..bytes.len()].copy_from_slice(bytes);
    bytes.len()
}

fn put_number(n: u64, row: &mut [u8]) -> usize
    requires { length (decimal n) ≤ length row.old }
    ensures value { result ≡ length (decimal n) }
    ensures after { row.new ≡ laid (decimal n) row.old }
{
    write_decimal(n, row).unwrap_or(0)
}

fn put_label<K: Kind>(event: &K, row: &mut [u8]) -> usize
    requires { length (K.Kind.label event.now) ≤ length row.old }
    ensures value { result ≡ length (K.Kind.label event.now) }
    ensures after { row.new ≡ laid (K.Kind.label event.now) row.old }
{
    event.write_label(row).unwrap_or(0)
}

// By hand: the library's `from_digit` gives lower-case digits, as a `char` that may be none.
fn hex_digit(n: u8) -> u8
    requires { n < 16 }
    ensures { result ≡ hex_digit n }
{
    if n < 10 { b'0' + n } else { b'A' + (n - 10) }
}

fn put_pair(b: u8, row: &mut [u8]) -> usize
    requires { length (hex_pair b) ≤ length row.old }
    ensures value { result ≡ length (hex_pair b) }
    ensures after { row.new ≡ laid (hex_pair b) row.old }
{
    put_bytes(&[hex_digit(b / 16), hex_digit(b % 16)], row)
}

// One loop for this, `put_others` and `put_line` would take a closure, with a contract longer than the three loops.
fn put_hex(bytes: &[u8], row: &mut [u8]) -> usize
    requires { length (flat_map hex_pair bytes.now) ≤ length row.old }
    ensures value { result ≡ length (flat_map hex_pair bytes.now) }
    ensures after { row.new ≡ laid (flat_map hex_pair bytes.now) row.old }
{
    let mut at = 0;
    for b in bytes {
        at += put_pair(*b, &mut row[at..]);
    }
    at
}

fn put_spaced<K: Kind>(event: &K, row: &mut [u8]) -> usize
    requires { length (spaced K.Kind.label event.now) ≤ length row.old }
    ensures value { result ≡ length (spaced K.Kind.label event.now) }
    ensures after { row.new ≡ laid (spaced K.Kind.label event.now) row.old }
{
    let at = put_bytes(b" ", row);
    at + put_label(event, &mut row[at..])
}

fn put_others<K: Kind>(events: &[K], row: &mut [u8]) -> usize
    requires { length (flat_map (spaced K.Kind.label) events.now) ≤ length row.old }
    ensures value { result ≡ length (flat_map (spaced K.Kind.label) events.now) }
    ensures after { row.new ≡ laid (flat_map (spaced K.Kind.label) events.now) row.old }
{
    let mut at = 0;
    for event in events {
        at += put_spaced(event, &mut row[at..]);
    }
    at
}

fn put_labels<K: Kind>(events: &[K], row: &mut [u8]) -> usize
    requires { length (parted K.Kind.label events.now) ≤ length row.old }
    ensures value { result ≡ length (parted K.Kind.label events.now) }
    ensures after { row.new ≡ laid (parted K.Kind.label events.now) row.old }
{
    let Some((first, others)) = events.split_first() else {
        return 0;
    };
    let at = put_label(first, row);
    at + put_others(others, &mut row[at..])
}

impl<K: Kind> Piece<'_, K> {
    fn put(&self, row: &mut [u8]) -> usize
        requires { length (piece_text K.Kind.label self.now) ≤ length row.old }
        ensures value { result ≡ length (piece_text K.Kind.label self.now) }
        ensures after { row.new ≡ laid (piece_text K.Kind.label self.now) row.old }
    {
        match self {
            Piece::Word(word) => put_bytes(word.text(), row),
            Piece::Number(n) => put_number(*n, row),
            Piece::Bytes(bytes) => put_hex(*bytes, row),
            Piece::Labels(events) => put_labels(*events, row),
        }
    }
}

pub(crate) fn put_line<K: Kind>(pieces: &[Piece<'_, K>], row: &mut [u8]) -> usize
    requires { length (line_text K.Kind.label pieces.now) ≤ length row.old }
    ensures value { result ≡ length (line_text K.Kind.label pieces.now) }
    ensures after { row.new ≡ laid (line_text K.Kind.label pieces.now) row.old }
{
    let mut at = 0;
    for piece in pieces {
        at += piece.put(&mut row[at..]);
    }
    at
}
