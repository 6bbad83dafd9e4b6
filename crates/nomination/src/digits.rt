// Numbers as digits.
ghost use Rattle.std.specs.Prelude.{◌≡◌};
ghost use Rattle.nomination.specs.Digits.{number_of};

/// The number that one to four digits write.
pub(crate) fn number(digits: &[u8]) -> Option<u16>
    ensures { result ≡ number_of digits.now }
{
    if !matches!(digits.len(), 1..=4) {
        return None;
    }
    // No fold, whose closure could not know that the value still fits, and no `parse`, which takes a sign.
    let mut value = 0;
    for b in digits {
        if !b.is_ascii_digit() {
            return None;
        }
        value = value * 10 + (*b - b'0') as u16;
    }
    Some(value)
}
