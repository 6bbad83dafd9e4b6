// Writing a line into a buffer.
ghost use Rattle.std.specs.Prelude.{◌≡◌, ℕ, ◌≤◌, true, length, is_some};
ghost use Rattle.nomination.specs.Texts.{line_text};
ghost use Rattle.nomination.specs.ValuesHeld.{values_said};
ghost use Rattle.nomination.specs.WayBack.{OnLine, ReadsBack};
ghost use Rattle.nomination.specs.Writing.{placed};

use crate::line_text::LineText;
use crate::values::Values;

/// Writes the line that says these values into a buffer at a place, and answers its length; or, where it does not fit
/// there, writes nothing. The line reader reads a line that was written as a record that says the same values.
pub fn write_line(values: Values, out: &mut [u8], at: usize) -> Option<usize>
    ensures written { (out.new, result) ≡ placed (line_text (values_said values)) out.old at }
    ensures back { (n : ℕ) → is_some result ≡ true → length out.new ≤ 65536 → OnLine n (values_said values) → ReadsBack out.new at n (values_said values) }
{
    LineText::of(values).write(out, at)
}
