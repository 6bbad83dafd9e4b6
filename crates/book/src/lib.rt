// Books: rows that a caller lends, and the entries that stand in them under keys.
#![tactic(auto)]

mod entry;
mod fault;
mod filed_book;
mod filed_row;
mod held;
mod keyed;
mod limits;
mod reading_book;
mod reading_row;
mod row;
mod scan;
mod sums;

pub use entry::Entry;
pub use fault::{BookFull, NotInUse};
pub use filed_book::FiledEntry;
pub use filed_row::{FiledKey, FiledKind, FiledRow, Flag};
pub use held::Book;
pub use keyed::Keyed;
pub use reading_book::Reading;
pub use reading_row::{ReadingKey, ReadingRow};
pub use row::Row;
