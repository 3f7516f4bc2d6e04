// C functions over the library, for benchmarks and tests that are written in Rust.
#![tactic(auto)]

ghost use Rattle.std.specs.Prelude.{◌≡◌, length};
ghost use Rattle.event.specs.Scanners.{order_of};
ghost use Rattle.bundle.specs.Tapes.{tapes};
ghost use Rattle.matching.specs.Checks.{or_refused};
ghost use Rattle.matching.specs.Learning.{learned, learn_refusal, filled};
ghost use Rattle.matching.specs.Rows.{bundle_refusal};
ghost use Rattle.matching.specs.Support.{support};
ghost use Rattle.exports.specs.Answers.{in_number};

use bundle::tape::Tapes;
use event::refusal::Refusal;
use event::scanner::Scanner;
use matching::learning::learn;
use matching::support::support_of;

/// Answers from here on are a refusal's number beyond it: C takes one number, and no enum.
const REFUSED: u64 = 4_294_967_296;

// An answer as one number.
fn as_number(answer: Result<u64, Refusal>) -> u64
    ensures { result ≡ in_number answer }
{
    answer.unwrap_or_else(|refusal| REFUSED + u64::from(refusal.number()))
}

/// The support of a pattern of scanner events, or a refusal.
#[unsafe(no_mangle)]
pub extern "C" fn scanner_support(events: &[Scanner], offsets: &[u32], pattern: &[Scanner]) -> u64
    ensures { result ≡ in_number (or_refused (bundle_refusal (length events.now) offsets.now) (support order_of (tapes events.now offsets.now) pattern.now)) }
{
    as_number(support_of::<Scanner>(&Tapes { events, offsets }, pattern).map(u64::from))
}

/// Learns a lexicon of scanner events into a row, and returns how many, or a refusal.
#[unsafe(no_mangle)]
pub extern "C" fn scanner_learn(events: &[Scanner], row: &mut [Scanner]) -> u64
    ensures answer { result ≡ in_number (or_refused (learn_refusal order_of events.now (length row.old)) (length (learned order_of events.now))) }
    ensures after { row.new ≡ filled (learn_refusal order_of events.now (length row.old)) (learned order_of events.now) row.old }
{
    as_number(learn::<Scanner>(events, row).map(|count| count as u64))
}
