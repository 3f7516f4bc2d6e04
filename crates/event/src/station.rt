ghost use Rattle.std.specs.Prelude.{◌≡◌};
ghost use Rattle.std.proofs.Common.{rules};
ghost use Rattle.event.specs.Kinds.{Exact};
ghost use Rattle.event.specs.StationLabels.{reads_back};
ghost use Rattle.event.specs.Stations.{action_of, outcome_of, order_of, stands_for, label_of, labelled_by, letter_of, outcome_for};

use crate::decimal::{decimal_length, read_numeral, write_decimal};
use crate::kind::Kind;
use crate::order::{Order, compare_numbers};
use crate::refusal::Refusal;

/// The largest action; the smallest is 1.
pub const MOST_ACTION: u8 = 99;

/// The largest outcome.
pub const MOST_OUTCOME: u8 = 2;

/// An event of a station: an action from 1 to 99, its outcome (0 done, 1 refused, 2 timed out) and the station's number. An action or an outcome outside its range stands for the nearest one within.
#[derive(Clone, Copy, Debug, PartialEq, Eq)]
#[repr(C)]
pub struct Station {
    pub action: u8,
    pub outcome: u8,
    pub station: u16,
}

impl Station {
    /// The action that the record stands for.
    pub fn nearest_action(&self) -> u8
        ensures { result ≡ action_of self.now }
    {
        self.action.clamp(1, MOST_ACTION)
    }

    /// The outcome that the record stands for.
    pub fn nearest_outcome(&self) -> u8
        ensures { result ≡ outcome_of self.now }
    {
        self.outcome.min(MOST_OUTCOME)
    }
}

// A record holds its outcome as a number, and a caller may have filled in any; an enum would be converted both ways.

// An outcome's letter.
fn letter(outcome: u8) -> u8
    ensures { result ≡ letter_of outcome }
{
    match outcome {
        0 => b'd',
        1 => b'r',
        _ => b't',
    }
}

// The outcome that a letter stands for.
fn outcome(letter: u8) -> Option<u8>
    ensures { result ≡ outcome_for letter }
{
    match letter {
        b'd' => Some(0),
        b'r' => Some(1),
        b't' => Some(2),
        _ => None,
    }
}

impl Kind for Station {
    const NUMBER: u16 = 2;

    const WIDTH: usize = 4;

    ghost NUMBER = { 2 };

    ghost WIDTH = { 4 };

    ghost order = { order_of };

    ghost stands = { stands_for };

    ghost label = { label_of };

    ghost labelled = { labelled_by };

    ghost alike_itself = { Prim.search rules };

    ghost exchanged = { Prim.search rules };

    ghost carried = { Prim.search rules };

    ghost read_back = { reads_back };

    fn compare(&self, other: &Self) -> Order {
        let action = compare_numbers(self.nearest_action().into(), other.nearest_action().into());
        let outcome = compare_numbers(
            self.nearest_outcome().into(),
            other.nearest_outcome().into(),
        );
        action.then(outcome)
    }

    fn read(bytes: &[u8]) -> Result<Self, Refusal> {
        let [action, outcome, high, low] = bytes else {
            return Err(Refusal::Event);
        };
        if *action < 1 || *action > MOST_ACTION || *outcome > MOST_OUTCOME {
            return Err(Refusal::Event);
        }
        Ok(Station {
            action: *action,
            outcome: *outcome,
            station: u16::from_be_bytes([*high, *low]),
        })
    }

    fn label_length(&self) -> usize {
        decimal_length(self.nearest_action().into()) + 2
    }

    fn write_label(&self, row: &mut [u8]) -> Result<usize, Refusal> {
        let digits = decimal_length(self.nearest_action().into());
        if row.len() < digits + 2 {
            return Err(Refusal::Room);
        }
        write_decimal(self.nearest_action().into(), row)?;
        row[digits] = b':';
        row[digits + 1] = letter(self.nearest_outcome());
        Ok(digits + 2)
    }

    fn read_label(bytes: &[u8]) -> Result<Self, Refusal> {
        let [front @ .., b':', mark] = bytes else {
            return Err(Refusal::Mark);
        };
        let outcome = outcome(*mark).ok_or(Refusal::Mark)?;
        match read_numeral(front, MOST_ACTION.into()) {
            Some(action) if action >= 1 => Ok(Station {
                action: action as u8,
                outcome,
                station: 0,
            }),
            _ => Err(Refusal::Mark),
        }
    }
}

/// A text stands for a station event only if it is that event's label.
pub fn station_labels_are_exact() -> u8
    ensures { Exact label_of labelled_by }
{
    0
}
