ghost use Rattle.std.specs.Prelude.{◌≡◌, ℕ, ◌≤◌, length, IfSome, decimal};
ghost use Rattle.event.specs.Numerals.{read_from, numeral};
ghost use Rattle.event.specs.Rows.{written, laid};

use crate::refusal::Refusal;

/// How many digits a number has in decimal.
pub fn decimal_length(n: u64) -> usize
    ensures value { result ≡ length (decimal n) }
    ensures bound { result ≤ 20 }
{
    n.checked_ilog10().unwrap_or(0) as usize + 1
}

// Fills a row with a number's digits. A `write!` may stop half-way; a row without room has to stay as it was.
fn put_digits(n: u64, row: &mut [u8])
    requires { length row.old ≡ length (decimal n) }
    ensures { row.new ≡ decimal n }
{
    let Some((last, front)) = row.split_last_mut() else {
        return;
    };
    *last = b'0' + (n % 10) as u8;
    if n >= 10 {
        put_digits(n / 10, front);
    }
}

/// Writes a number in decimal at a row's front and says how many digits; where they have no room, ROOM, and the row stays.
pub fn write_decimal(n: u64, row: &mut [u8]) -> Result<usize, Refusal>
    ensures answer { result ≡ written (length (decimal n)) (length row.old) }
    ensures after { row.new ≡ laid (decimal n) row.old }
{
    let count = decimal_length(n);
    if row.len() < count {
        return Err(Refusal::Room);
    }
    put_digits(n, &mut row[0..count]);
    Ok(count)
}

/// The number that digits write, leading zeros among them; none past a limit, and none at what is no digit.
// The library's parse takes a sign too, and takes text.
pub fn read_digits(bytes: &[u8], most: u16) -> Option<u16>
    ensures value { result ≡ read_from most 0 bytes.now }
    ensures bound { IfSome result (λ v. v ≤ most) }
{
    let mut value: u16 = 0;
    for b in bytes {
        if !b.is_ascii_digit() {
            return None;
        }
        let next = u32::from(value) * 10 + u32::from(*b - b'0');
        if next > u32::from(most) {
            return None;
        }
        value = next as u16;
    }
    Some(value)
}

/// The number up to a limit that a text without leading zeros writes.
pub fn read_numeral(bytes: &[u8], most: u16) -> Option<u16>
    ensures value { result ≡ numeral most bytes.now }
    ensures bound { IfSome result (λ v. v ≤ most) }
{
    match bytes {
        [] => None,
        [b'0', _, ..] => None,
        _ => read_digits(bytes, most),
    }
}
