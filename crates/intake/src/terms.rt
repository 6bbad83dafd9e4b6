// What a file is asked against besides the register and the book.
use calendar::{Date, DayLength};

/// A day's date and length, and how many files it has taken.
#[derive(Clone, Copy)]
pub struct FileTerms {
    pub date: Date,
    pub length: DayLength,
    pub files: u32,
}
