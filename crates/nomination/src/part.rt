// A part of the text.

/// Bytes of the text, not copied, and the place at which they start.
#[derive(Clone, Copy, PartialEq, Eq, Debug)]
pub struct Part<'a> {
    pub bytes: &'a [u8],
    pub at: usize,
}
