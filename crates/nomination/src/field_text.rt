// Fields as text, each appended to a line's. No `write!`: its contract does not say when it succeeds, and a field's text cannot fail.
ghost use Rattle.std.specs.Prelude.{◌≡◌, ◌≤◌, ◌+◌, ◌∷◌, ◌++◌, length};
ghost use Rattle.arrayvec.specs.ArrayString.{array_string_len};
ghost use Rattle.energy.specs.PartyCodes.{code_text};
ghost use Rattle.nomination.specs.LastDigits.{last_digits};
ghost use Rattle.nomination.specs.Texts.{plain_text, amount_text, flag_text};

use crate::longest::LONGEST_LINE;
use arrayvec::ArrayString;
use book::Flag;
use energy::{Kwh, PartyCode};

/// A line's text while it is written.
// Each field goes straight into it: a text for each, joined later, took more than twice the instructions.
pub(crate) type Text = ArrayString<LONGEST_LINE>;

/// Appends so many last digits of a number.
#[tactic(auto, using(crate::proofs::FieldTexting::tens_some, crate::proofs::FieldTexting::digits_next))]
pub(crate) fn push_digits(text: &mut Text, count: u32, number: u64)
    requires few { count ≤ 8 }
    requires room { array_string_len text.old + count ≤ LONGEST_LINE }
    ensures { text.new.bytes ≡ text.old.bytes ++ last_digits count number }
{
    for place in (0..count).rev() {
        text.push(char::from(b'0' + (number / 10_u64.pow(place) % 10) as u8));
    }
}

/// Appends a number below 10,000 with no needless leading zero.
// The counts are constants, so that each digit is found by a constant divisor.
pub(crate) fn push_plain(text: &mut Text, number: u64)
    requires { array_string_len text.old + length (plain_text number) ≤ LONGEST_LINE }
    ensures { text.new.bytes ≡ text.old.bytes ++ plain_text number }
{
    match number {
        ..10 => push_digits(text, 1, number),
        ..100 => push_digits(text, 2, number),
        ..1000 => push_digits(text, 3, number),
        _ => push_digits(text, 4, number),
    }
}

/// Appends a comma and an energy in MWh.
pub(crate) fn push_amount(text: &mut Text, energy: Kwh)
    requires { array_string_len text.old + length (44 ∷ amount_text energy) ≤ LONGEST_LINE }
    ensures { text.new.bytes ≡ text.old.bytes ++ (44 ∷ amount_text energy) }
{
    text.push(',');
    push_plain(text, energy.0 / 1000);
    text.push('.');
    push_digits(text, 3, energy.0);
}

/// Appends a comma and a party's code.
pub(crate) fn push_code(text: &mut Text, code: PartyCode)
    requires { array_string_len text.old + 5 ≤ LONGEST_LINE }
    ensures { text.new.bytes ≡ text.old.bytes ++ (44 ∷ code_text code) }
{
    text.push(',');
    for byte in code.bytes() {
        // Each is below 128; the compiler, which reads no proofs, sees it by the `%`.
        text.push(char::from(byte % 128));
    }
}

/// Appends a comma and the letter of a flag: none for brown.
pub(crate) fn push_flag(text: &mut Text, flag: Flag)
    requires { array_string_len text.old + length (44 ∷ flag_text flag) ≤ LONGEST_LINE }
    ensures { text.new.bytes ≡ text.old.bytes ++ (44 ∷ flag_text flag) }
{
    text.push(',');
    match flag {
        Flag::Brown => {}
        Flag::Chp => text.push('C'),
        Flag::Renewable => text.push('G'),
    }
}
