// Why a book does not take an entry.

/// A book has no space for one more entry.
#[derive(Clone, Copy, PartialEq, Eq, Debug)]
pub struct BookFull;

/// A book has no such row in use.
#[derive(Clone, Copy, PartialEq, Eq, Debug)]
pub struct NotInUse;
