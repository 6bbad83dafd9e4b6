// The text of a line. The struct stands alone: what is said of it elsewhere names it.
ghost use Rattle.std.specs.Prelude.{◌≤◌, length};

use crate::longest::LONGEST_LINE;
use arrayvec::ArrayString;

mod calls;

/// A line as it is written, byte 10 included: no line is longer than 36 bytes.
#[derive(Clone, Copy, PartialEq, Eq, Debug)]
pub struct LineText {
    text: ArrayString<LONGEST_LINE>,
    ghost within: { length text.bytes ≤ 36 },
}
