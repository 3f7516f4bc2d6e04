ghost use Rattle.std.specs.Prelude.{◌≡◌, Ok, Err, IfOk, IfErr};
ghost use Rattle.reply.specs.Inputs.{query_line, bundle_part, requested, kind_numbered, kind_for};

use bundle::fault::BundleFault;
use event::kind::Kind;
use event::scanner::Scanner;
use event::station::Station;
use query::line::{Query, QueryFault, read_query, split_once_at};

/// The most bytes that the lister takes.
pub const MOST_INPUT: usize = 32_768;

/// The query line and the bundle: what stands before the first line feed, or all, and what stands behind it.
pub(crate) fn split_input(input: &[u8]) -> (&[u8], &[u8])
    ensures line { result.0.now ≡ query_line input.now }
    ensures bundle { result.1.now ≡ bundle_part input.now }
{
    match split_once_at(b'\n', input) {
        Some(parts) => parts,
        None => (input, &[]),
    }
}

/// The query of an input that is not too long and has a line feed, and the bundle behind that.
pub(crate) fn read_request(input: &[u8]) -> Result<(Query, &[u8]), QueryFault>
    ensures query { IfOk result (λ x. requested input.now ≡ Ok x.0) }
    ensures bundle { IfOk result (λ x. x.1.now ≡ bundle_part input.now) }
    ensures fault { IfErr result (λ f. requested input.now ≡ Err f) }
{
    if input.len() > MOST_INPUT {
        return Err(QueryFault::Input);
    }
    let (line, bundle) = split_once_at(b'\n', input).ok_or(QueryFault::Line)?;
    Ok((read_query(line)?, bundle))
}

/// A kind that the lister knows.
#[derive(Clone, Copy, Debug, PartialEq, Eq)]
pub(crate) enum FileKind {
    Scanner,
    Station,
}

impl TryFrom<u16> for FileKind {
    type Error = BundleFault;

    ghost try_from_gives = { λ n r. r ≡ kind_numbered n };

    fn try_from(number: u16) -> Result<FileKind, BundleFault> {
        match number {
            Scanner::NUMBER => Ok(FileKind::Scanner),
            Station::NUMBER => Ok(FileKind::Station),
            _ => Err(BundleFault::Kind),
        }
    }
}

/// The kind that a bundle file names.
pub(crate) fn file_kind(file: &[u8]) -> Result<FileKind, BundleFault>
    ensures { result ≡ kind_for file.now }
{
    let [high, low, _, _, _, _, _, _, ..] = file else {
        return Err(BundleFault::Short);
    };
    FileKind::try_from(u16::from_be_bytes([*high, *low]))
}
