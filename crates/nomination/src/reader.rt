// The line reader. The struct stands alone: what is said of it elsewhere names it.
ghost use Rattle.std.specs.Prelude.{◌+◌, ◌≤◌, length};

mod calls;
mod said;

/// A text that is read line by line: the place of the next line, and its number from 1.
#[derive(Clone, Copy, PartialEq, Eq, Debug)]
pub struct LineReader<'a> {
    text: &'a [u8],
    at: usize,
    line: usize,
    ghost within: { at ≤ length text.now },
    ghost near: { line ≤ at + 1 },
    ghost first: { 1 ≤ line },
}
