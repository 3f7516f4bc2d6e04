ghost use Rattle.std.specs.Prelude.{◌≡◌, ℕ, ◌-◌, ◌<◌, List, [], ◌++◌, length, vec_len, OnOk};
ghost use Rattle.event.specs.Rows.{written, laid};
ghost use Rattle.report.specs.Lines.{text_of};
ghost use Rattle.report.specs.Texts.{head_text};

use crate::fault::ListerFault;
use crate::text::{write_end, write_head, write_pattern, write_refused};
use bundle::tape::Tapes;
use event::kind::Kind;
use event::refusal::Refusal;
use query::line::Query;
use std::alloc::{AllocError, Global};
use std::marker::Model;

/// A line that the lister writes.
#[derive(Clone, Copy, Debug, PartialEq, Eq)]
pub enum Line<'a, K> {
    /// What was read.
    Head {
        tapes: usize,
        events: usize,
        query: &'a Query,
    },
    /// A pattern and its support.
    Pattern {
        support: u32,
        pattern: &'a [K],
    },
    /// The end of the list, and how many patterns it has.
    End {
        count: u32,
    },
    /// A refusal, with the query line and the bundle.
    Refused {
        fault: &'a ListerFault,
        query: &'a [u8],
        bundle: &'a [u8],
    },
}

impl<'a, K: Kind> Line<'a, K> {
    /// Writes the line with its line feed at a row's front and returns its length; where it has no room, ROOM, and the row stays.
    pub fn write(&self, row: &mut [u8]) -> Result<usize, Refusal>
        ensures answer { result ≡ written (length (text_of K.Kind.label self.now)) (length row.old) }
        ensures after { row.new ≡ laid (text_of K.Kind.label self.now) row.old }
    {
        match *self {
            Line::Head {
                tapes,
                events,
                query,
            } => write_head(tapes, events, query, row),
            Line::Pattern { support, pattern } => write_pattern(support, pattern, row),
            Line::End { count } => write_end(count, row),
            Line::Refused {
                fault,
                query,
                bundle,
            } => write_refused(fault, query, bundle, row),
        }
    }
}

/// How much longer a row is made for a line that has no room in it.
const GROWTH: usize = 4096;

// Makes a row longer.
fn grow(row: &mut Vec<u8>) -> Result<(), AllocError>
    ensures { OnOk result (vec_len row.old < vec_len row.new) }
{
    row.resize(row.len() + GROWTH, 0)
}

/// Appends a line to a text. The row is where it is written first, and grows to the longest line.
pub fn append<K: Kind>(
    line: &Line<'_, K>,
    row: &mut Vec<u8>,
    text: &mut Vec<u8>,
) -> Result<(), AllocError>
    ensures { OnOk result (text.new.items ≡ text.old.items ++ text_of K.Kind.label line.now) }
{
    loop {
        match line.write(row.as_mut_slice()) {
            Ok(count) => return text.extend_from_slice(&row[..count]),
            Err(_) => grow(row)?,
        }
    }
}

/// A text of lines, with the row where each line is written first.
#[derive(Drop)]
pub struct Page {
    text: Vec<u8>,
    row: Vec<u8>,
}

impl Model for Page {
    ghost Value = { List ℕ };

    ghost view = { λ page. page.text.items };
}

impl Page {
    /// An empty text.
    pub fn new(heap: Global) -> Page
        ensures { result ≡ [] }
    {
        Page {
            text: Vec::new(heap),
            row: Vec::new(heap),
        }
    }

    /// Appends a line.
    pub fn append<K: Kind>(&mut self, line: &Line<'_, K>) -> Result<(), AllocError>
        ensures { OnOk result (self.new ≡ self.old ++ text_of K.Kind.label line.now) }
    {
        append(line, &mut self.row, &mut self.text)
    }

    /// Appends the line of what was read: the counts of the tapes and of their events, and the numbers of the query.
    pub fn append_head<K: Kind>(
        &mut self,
        tapes: &Tapes<'_, K>,
        query: &Query,
    ) -> Result<(), AllocError>
        ensures { OnOk result (self.new ≡ self.old ++ head_text (length tapes.now.offsets.now - 1) (length tapes.now.events.now) query.now.threshold query.now.longest) }
    {
        let head: Line<'_, K> = Line::Head {
            tapes: tapes.count(),
            events: tapes.events.len(),
            query,
        };
        self.append(&head)
    }

    /// The text.
    pub fn into_text(self) -> Vec<u8>
        ensures { result.items ≡ self }
    {
        self.text
    }
}
