// A line of a text. The struct stands alone: what is said of it elsewhere names it.
ghost use Rattle.std.specs.Prelude.{◌+◌, ◌^◌, ◌<◌, length};

mod fields;
mod records;

/// A line: its bytes without byte 10, whether byte 10 ends it, the place at which it starts, and its number from 1.
#[derive(Clone, Copy)]
pub(crate) struct TextLine<'a> {
    pub(crate) bytes: &'a [u8],
    pub(crate) ended: bool,
    pub(crate) at: usize,
    pub(crate) number: usize,
    ghost small: { at + length bytes.now < 2 ^ 63 },
}
