// The text of a nomination file: how it is parted into lines and fields, what these say, and how a line is written.
#![tactic(auto)]

mod amount;
mod detail;
mod digits;
mod fault;
mod field_text;
mod flag;
mod header;
mod kind;
mod line;
mod line_text;
mod longest;
mod mark;
mod numbers;
mod part;
mod reader;
mod reading;
mod record;
mod search;
mod values;
mod write;

pub use amount::read_amount;
pub use detail::Detail;
pub use fault::{FaultReport, TextFault};
pub use flag::read_flag;
pub use header::Header;
pub use line_text::LineText;
pub use longest::longest_line;
pub use mark::Mark;
pub use numbers::{read_date, read_period, read_version};
pub use part::Part;
pub use reader::LineReader;
pub use reading::read_values;
pub use record::{DetailParts, HeaderParts, Record, RecordOf};
pub use search::next_mark;
pub use values::Values;
pub use write::write_line;
