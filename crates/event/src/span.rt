ghost use Rattle.std.specs.Prelude.{◌≡◌};
ghost use Rattle.event.specs.Spans.{spanned};

/// A part of some bytes: the place of its first byte, and its length.
#[derive(Clone, Copy, Debug, PartialEq, Eq)]
pub struct Span {
    pub start: usize,
    pub length: usize,
}

/// The part of some bytes; what lies past their end is not there.
pub fn part(bytes: &[u8], span: Span) -> &[u8]
    ensures { result.now ≡ spanned bytes.now span }
{
    let rest = &bytes[span.start.min(bytes.len())..];
    &rest[0..span.length.min(rest.len())]
}
