// The search for the next mark.
ghost use Rattle.std.specs.Prelude.{◌≡◌, ◌==◌, position};
ghost use Rattle.nomination.specs.Marks.{first_mark, is_mark, mark_byte};

use crate::mark::{Mark, is_mark};

/// The first comma or byte 10 at or after a place, or none where none is left.
pub fn next_mark(text: &[u8], from: usize) -> Option<usize>
    ensures { result ≡ first_mark text.now from }
{
    Some(from + first_of(text.get(from..)?)?)
}

/// The place of the first mark in a text.
fn first_of(text: &[u8]) -> Option<usize>
    ensures { result ≡ position is_mark text.now }
{
    text.iter().position(|b| is_mark(*b))
}

/// The place of the first such mark in a text.
pub(crate) fn find(text: &[u8], mark: Mark) -> Option<usize>
    ensures { result ≡ position (λ b. b == mark_byte mark) text.now }
{
    // It goes from mark to mark, so that one search alone looks at the bytes.
    let mut at = 0;
    while let Some(place) = next_mark(text, at) {
        if text[place] == mark.byte() {
            return Some(place);
        }
        at = place + 1;
    }
    None
}
