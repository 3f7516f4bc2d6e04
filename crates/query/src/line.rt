ghost use Rattle.std.specs.Prelude.{◌≡◌, ℕ, ◌+◌, ◌<◌, ◌≤◌, ◌↔◌, length, take, drop, IsSome, IfSome};
ghost use Rattle.query.specs.Faults.{query_refusal, query_span};
ghost use Rattle.query.specs.Queries.{before, digits_to, query_in, or_line, QueryStands};

use event::decimal::read_digits;
use event::refusal::Refusal;
use event::span::Span;

/// What the query line asks for: a threshold, a longest length, and where the expression's text is in the line.
#[derive(Clone, Copy, Debug, PartialEq, Eq)]
pub struct Query {
    pub threshold: u32,
    pub longest: u32,
    pub text: Span,
}

/// Why there is no query.
#[derive(Clone, Copy, Debug, PartialEq, Eq)]
pub enum QueryFault {
    /// More input than the lister takes.
    Input,
    /// A line of another form.
    Line,
}

impl QueryFault {
    /// The refusal that this fault is.
    pub fn refusal(&self) -> Refusal
        ensures { result ≡ query_refusal self.now }
    {
        match self {
            QueryFault::Input => Refusal::Input,
            QueryFault::Line => Refusal::Query,
        }
    }

    /// Where in the line the bytes at fault are: no fault of a query names any.
    pub fn span(&self) -> Option<Span>
        ensures { result ≡ query_span self.now }
    {
        None
    }
}

/// How many bytes stand before the first of a value, or all where there is none.
pub fn count_before(value: u8, bytes: &[u8]) -> usize
    ensures value { result ≡ before value bytes.now }
    ensures within { result ≤ length bytes.now }
{
    bytes
        .iter()
        .position(|b| *b == value)
        .unwrap_or(bytes.len())
}

/// What stands before the first of a value and what stands behind it, if there is one.
pub fn split_once_at(value: u8, bytes: &[u8]) -> Option<(&[u8], &[u8])>
    ensures some { IsSome result ↔ (before value bytes.now < length bytes.now) }
    ensures front { IfSome result (λ p. p.0.now ≡ take (before value bytes.now) bytes.now) }
    ensures behind { IfSome result (λ p. p.1.now ≡ drop (before value bytes.now + 1) bytes.now) }
{
    let (front, rest) = bytes.split_at(count_before(value, bytes));
    let (_value, behind) = rest.split_first()?;
    Some((front, behind))
}

// The number that one to so many digits write.
fn read_field(bytes: &[u8], digits: usize, most: u16) -> Option<u16>
    ensures { result ≡ digits_to digits most bytes.now }
{
    if bytes.is_empty() || bytes.len() > digits {
        return None;
    }
    read_digits(bytes, most)
}

// The query in a line, if it is written there.
fn find_query(line: &[u8]) -> Option<Query>
    ensures { result ≡ query_in line.now }
{
    let (threshold, rest) = split_once_at(b' ', line)?;
    let (longest, text) = split_once_at(b' ', rest)?;
    Some(Query {
        threshold: read_field(threshold, 3, 999)?.into(),
        longest: read_field(longest, 2, 99)?.into(),
        text: Span {
            start: line.len() - text.len(),
            length: text.len(),
        },
    })
}

/// Reads the query line, given without its line feed.
pub fn read_query(line: &[u8]) -> Result<Query, QueryFault>
    ensures { result ≡ or_line (query_in line.now) }
{
    find_query(line).ok_or(QueryFault::Line)
}

/// A line is read as a query exactly if it is written as one.
pub fn query_stands() -> u8
    ensures { QueryStands }
{
    0
}
