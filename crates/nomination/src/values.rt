// What a record says.
use crate::detail::Detail;
use crate::header::Header;
use crate::record::RecordOf;
use book::Flag;

/// What a header, a trade with its flag or a match says.
pub type Values = RecordOf<Header, Detail, Flag>;
