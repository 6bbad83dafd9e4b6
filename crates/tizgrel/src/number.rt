// Whole numbers in a user's words.
ghost use Rattle.std.specs.Prelude.{◌≡◌};
ghost use Rattle.tizgrel.specs.Numbers.{whole_number};
ghost use Rattle.std.specs.Str.{all_ascii_digits};

use thiserror::Error;

/// Why a word is no number that a call can take.
#[derive(Clone, Copy, PartialEq, Eq, Debug, Error)]
pub enum NumberFault {
    #[error("not a whole number")]
    NotDigits,
    #[error("not below 2^64")]
    TooLarge,
}

/// The whole number that a word of one or more digits writes.
pub fn whole_number(word: &str) -> Result<u64, NumberFault>
    ensures { result ≡ whole_number word.now }
{
    if word.is_empty() || !all_digits(word.as_bytes()) {
        return Err(NumberFault::NotDigits);
    }
    word.parse().map_err(|_| NumberFault::TooLarge)
}

fn all_digits(bytes: &[u8]) -> bool
    ensures { result ≡ all_ascii_digits bytes.now }
{
    bytes.iter().all(|b| b.is_ascii_digit())
}
