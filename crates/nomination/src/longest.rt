// How long a line can be.
ghost use Rattle.nomination.specs.Longest.{Longest};

/// The bytes of a trade whose every field is as long as it can be.
pub(crate) const LONGEST_LINE: usize = 36;

/// The length of the longest line.
pub fn longest_line() -> usize
    ensures { Longest result }
{
    LONGEST_LINE
}
