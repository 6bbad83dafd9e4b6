// A nomination file into a book, whole or not at all, and a party's entries as a file.
#![tactic(auto)]

mod admit;
mod asked_day;
mod detail;
mod fault;
mod file;
mod filing;
mod header;
mod lines;
mod refusal;
mod taken;
mod terms;

pub use fault::{BookFault, FileFault, Layer, RegisterFault};
pub use file::take_file;
pub use refusal::WriteRefusal;
pub use taken::Taken;
pub use terms::FileTerms;
