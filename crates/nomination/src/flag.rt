// The flag of a trade.
ghost use Rattle.std.specs.Prelude.{◌≡◌};
ghost use Rattle.nomination.specs.Fields.{flag_of, flag_letter};

use book::Flag;

// No TryFrom: `Flag` is another crate's.
/// The flag that a field names: none for brown.
pub fn read_flag(text: &[u8]) -> Option<Flag>
    ensures { result ≡ flag_of text.now }
{
    match text {
        [] => Some(Flag::Brown),
        [letter] => lettered(*letter as char),
        _ => None,
    }
}

/// The flag of a letter.
fn lettered(letter: char) -> Option<Flag>
    ensures { result ≡ flag_letter letter }
{
    match letter {
        'C' => Some(Flag::Chp),
        'G' => Some(Flag::Renewable),
        _ => None,
    }
}
