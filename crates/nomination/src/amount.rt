// Amounts of energy: the one place where an amount is read.
ghost use Rattle.std.specs.Prelude.{◌≡◌};
ghost use Rattle.nomination.specs.Fields.{amount_of, plain_of};

use crate::digits::number;
use energy::Kwh;

// No TryFrom: `Kwh` is another crate's.
/// The energy that an amount in MWh writes: a whole number, a point and three digits.
pub fn read_amount(text: &[u8]) -> Option<Kwh>
    ensures { result ≡ amount_of text.now }
{
    let (whole, rest) = text.split_at(text.len().checked_sub(4)?);
    let part = rest.strip_prefix(b".")?;
    Some(Kwh(plain_number(whole)? as u64 * 1000 + number(part)? as u64))
}

/// The number that digits write with no needless leading zero.
fn plain_number(digits: &[u8]) -> Option<u16>
    ensures { result ≡ plain_of digits.now }
{
    if digits.len() > 1 && digits.starts_with(b"0") {
        return None;
    }
    number(digits)
}
