ghost use Rattle.std.specs.Prelude.{◌≡◌, IfOk};
ghost use Rattle.expression.specs.Cuts.{goes_on, stays_in, next_begun, ended, alone, lone, spans_in};

use event::span::Span;
use std::alloc::{AllocError, Global};

// Whether a byte goes on with a label.
fn goes_on(byte: u8) -> bool
    ensures { result ≡ goes_on byte }
{
    byte.is_ascii_digit() || byte == b':' || byte.is_ascii_lowercase()
}

// The label that is open, by its first place, if one is.
#[derive(Clone, Copy, Debug)]
struct Open {
    begun: Option<usize>,
}

impl Open {
    // Whether the label goes on with a byte.
    fn stays(self, byte: u8) -> bool
        ensures { result ≡ stays_in self.begun byte }
    {
        self.begun.is_some() && goes_on(byte)
    }

    // The label that is open behind a byte: a digit starts one.
    fn behind(self, at: usize, byte: u8) -> Open
        ensures { result.begun ≡ next_begun self.begun at byte }
    {
        if self.stays(byte) {
            self
        } else {
            Open {
                begun: byte.is_ascii_digit().then_some(at),
            }
        }
    }

    // The label, if it ends before a byte.
    fn ended_before(self, at: usize, byte: u8) -> Option<Span>
        ensures { result ≡ ended self.begun at byte }
    {
        if goes_on(byte) {
            None
        } else {
            self.ended_at(at)
        }
    }

    // The label, ended at a place.
    fn ended_at(self, at: usize) -> Option<Span>
        ensures { result ≡ lone self.begun at }
    {
        self.begun.map(|start| Span {
            start,
            length: at.saturating_sub(start),
        })
    }

    // The mark that a byte is alone.
    fn alone_at(self, at: usize, byte: u8) -> Option<Span>
        ensures { result ≡ alone self.begun at byte }
    {
        if self.stays(byte) || byte.is_ascii_digit() || byte == b' ' {
            None
        } else {
            Some(Span {
                start: at,
                length: 1,
            })
        }
    }
}

/// Cuts a text into marks, by their places: spaces part them; a digit starts a label, which takes all digits, colons and small letters that follow; every other byte is a mark alone.
pub fn cut(text: &[u8], heap: Global) -> Result<Vec<Span>, AllocError>
    ensures { IfOk result (λ spans. spans.items ≡ spans_in text.now) }
{
    let mut spans = Vec::new(heap);
    // A label goes over many bytes, so it is carried along.
    let mut open = Open { begun: None };
    for (at, &byte) in text.iter().enumerate() {
        spans.extend(open.ended_before(at, byte))?;
        spans.extend(open.alone_at(at, byte))?;
        open = open.behind(at, byte);
    }
    spans.extend(open.ended_at(text.len()))?;
    Ok(spans)
}
