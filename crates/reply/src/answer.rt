ghost use Rattle.std.specs.Prelude.{◌≡◌, is_some, IfOk};
ghost use Rattle.reply.specs.Inputs.{bundle_part, requested, kind_for};
ghost use Rattle.reply.specs.Outcomes.{Outcome};
ghost use Rattle.reply.specs.Replies.{fault_in, list_text, reply_text};

use crate::contents::{Contents, ListError};
use crate::input::{FileKind, file_kind, read_request, split_input};
use crate::reading::append_file;
use event::scanner::Scanner;
use event::station::Station;
use report::output::{Line, Page};
use std::alloc::{AllocError, Global};

// Some event of each kind, which fills the rows that a bundle is read into.
const SCANNER: Scanner = Scanner { code: 0 };

const STATION: Station = Station {
    action: 1,
    outcome: 0,
    station: 0,
};

// Appends what is listed of an input.
fn append_list<C: Contents>(heap: Global, input: &[u8], page: &mut Page) -> Result<(), ListError>
    ensures { Outcome (fault_in C.listed input.now) page.old (list_text C.listed (requested input.now) (kind_for (bundle_part input.now)) (bundle_part input.now)) page.new result }
{
    let (query, file) = read_request(input)?;
    match file_kind(file)? {
        FileKind::Scanner => append_file::<C, Scanner>(heap, &query, file, SCANNER, page),
        FileKind::Station => append_file::<C, Station>(heap, &query, file, STATION, page),
    }
}

/// What the lister answers: the text that it writes, and whether that is a refusal.
// The text is there in both cases, so the flag says of no field that it counts.
#[derive(Drop)]
pub struct Reply {
    pub text: Vec<u8>,
    pub refused: bool,
}

/// The answer to an input: its list, or the line of the refusal.
pub fn reply_to<C: Contents>(heap: Global, input: &[u8]) -> Result<Reply, AllocError>
    ensures text { IfOk result (λ x. x.text.items ≡ reply_text C.listed input.now) }
    ensures refused { IfOk result (λ x. x.refused ≡ is_some (fault_in C.listed input.now)) }
{
    let mut page = Page::new(heap);
    let refused = match append_list::<C>(heap, input, &mut page) {
        Ok(()) => false,
        Err(ListError::Refused(fault)) => {
            let (query, bundle) = split_input(input);
            let line: Line<'_, Scanner> = Line::Refused {
                fault: &fault,
                query,
                bundle,
            };
            page.append(&line)?;
            true
        }
        Err(ListError::Memory) => return Err(AllocError),
    };
    Ok(Reply {
        text: page.into_text(),
        refused,
    })
}
