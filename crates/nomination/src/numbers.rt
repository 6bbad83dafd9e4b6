// Periods, versions and dates as they stand in a file. No TryFrom: it is not ours to give to numbers, and each of these has
// one way to fail.
ghost use Rattle.std.specs.Prelude.{◌≡◌};
ghost use Rattle.nomination.specs.Fields.{period_of, version_of, date_of};

use crate::digits::number;

/// The period that one or two digits name, the first not 0.
pub fn read_period(text: &[u8]) -> Option<u8>
    ensures { result ≡ period_of text.now }
{
    if text.len() > 2 || text.starts_with(b"0") {
        return None;
    }
    Some(number(text)? as u8)
}

/// The version that three digits name, 001 to 999.
pub fn read_version(text: &[u8]) -> Option<u16>
    ensures { result ≡ version_of text.now }
{
    if text.len() != 3 {
        return None;
    }
    number(text).filter(|version| *version != 0)
}

/// The number that the eight digits of a date write, whether the calendar has it or not.
pub fn read_date(text: &[u8]) -> Option<u32>
    ensures { result ≡ date_of text.now }
{
    if text.len() != 8 {
        return None;
    }
    let (year, day) = text.split_at(4);
    Some(number(year)? as u32 * 10_000 + number(day)? as u32)
}
