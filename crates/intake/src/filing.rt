// Whose lines are filed.
use crate::asked_day::AskedDay;
use energy::PartyCode;

/// A party that files on a day.
#[derive(Clone, Copy)]
pub(crate) struct Filing<'a> {
    pub(crate) day: AskedDay<'a>,
    pub(crate) filer: PartyCode,
}
