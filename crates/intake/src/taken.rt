// What becomes of a file that is taken.

/// How many rows of the book are then in use, and how many lines of the file were filed.
#[derive(Clone, Copy, PartialEq, Eq, Debug)]
pub struct Taken {
    pub used: usize,
    pub lines: usize,
}
