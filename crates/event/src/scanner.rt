ghost use Rattle.std.specs.Prelude.{◌≡◌};
ghost use Rattle.std.proofs.Common.{rules};
ghost use Rattle.event.specs.Kinds.{Exact};
ghost use Rattle.event.specs.ScannerLabels.{reads_back};
ghost use Rattle.event.specs.Scanners.{code_of, order_of, stands_for, label_of, labelled_by};

use crate::decimal::{decimal_length, read_numeral, write_decimal};
use crate::kind::Kind;
use crate::order::{Order, compare_numbers};
use crate::refusal::Refusal;

/// The largest code.
pub const MOST_CODE: u16 = 4095;

/// An event of a scanner: a code from 0 to 4095. A larger code stands for 4095.
#[derive(Clone, Copy, Debug, PartialEq, Eq)]
#[repr(C)]
pub struct Scanner {
    pub code: u16,
}

impl Scanner {
    /// The code that the record stands for.
    pub fn nearest_code(&self) -> u16
        ensures { result ≡ code_of self.now }
    {
        self.code.min(MOST_CODE)
    }
}

impl Kind for Scanner {
    const NUMBER: u16 = 1;

    const WIDTH: usize = 2;

    ghost NUMBER = { 1 };

    ghost WIDTH = { 2 };

    ghost order = { order_of };

    ghost stands = { stands_for };

    ghost label = { label_of };

    ghost labelled = { labelled_by };

    ghost alike_itself = { Prim.search rules };

    ghost exchanged = { Prim.search rules };

    ghost carried = { Prim.search rules };

    ghost read_back = { reads_back };

    fn compare(&self, other: &Self) -> Order {
        compare_numbers(self.nearest_code(), other.nearest_code())
    }

    fn read(bytes: &[u8]) -> Result<Self, Refusal> {
        let [high, low] = bytes else {
            return Err(Refusal::Event);
        };
        let code = u16::from_be_bytes([*high, *low]);
        if code > MOST_CODE {
            return Err(Refusal::Event);
        }
        Ok(Scanner { code })
    }

    fn label_length(&self) -> usize {
        decimal_length(self.nearest_code().into())
    }

    fn write_label(&self, row: &mut [u8]) -> Result<usize, Refusal> {
        write_decimal(self.nearest_code().into(), row)
    }

    fn read_label(bytes: &[u8]) -> Result<Self, Refusal> {
        let code = read_numeral(bytes, MOST_CODE).ok_or(Refusal::Mark)?;
        Ok(Scanner { code })
    }
}

/// A text stands for a scanner event only if it is that event's label.
pub fn scanner_labels_are_exact() -> u8
    ensures { Exact label_of labelled_by }
{
    0
}
