// The two marks that part a text.
ghost use Rattle.std.specs.Prelude.{◌≡◌};
ghost use Rattle.nomination.specs.Marks.{mark_byte, is_mark};

/// What parts a text: a comma stands between two fields, byte 10 ends a line.
#[derive(Clone, Copy, PartialEq, Eq, Debug)]
pub enum Mark {
    Comma,
    LineEnd,
}

impl Mark {
    /// The byte of the mark.
    pub fn byte(self) -> u8
        ensures { result ≡ mark_byte self }
    {
        // As discriminants the bytes would need casts, as `b',' as isize`.
        match self {
            Mark::Comma => b',',
            Mark::LineEnd => b'\n',
        }
    }
}

/// Whether a byte is one of the marks.
pub(crate) fn is_mark(byte: u8) -> bool
    ensures { result ≡ is_mark byte }
{
    matches!(byte, b',' | b'\n')
}
