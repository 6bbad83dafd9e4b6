// What a header says. The struct stands alone: what is said of it elsewhere names it.
ghost use Rattle.std.specs.Prelude.{◌≤◌};

use energy::PartyCode;

mod calls;

/// A file's version, the party that files it, and its date: eight digits, whether the calendar has it or not.
#[derive(Clone, Copy, PartialEq, Eq, Debug)]
pub struct Header {
    pub(crate) version: u16,
    pub(crate) filer: PartyCode,
    pub(crate) date: u32,
    ghost first: { 1 ≤ version },
    ghost last: { version ≤ 999 },
    ghost digits: { date ≤ 99999999 },
}
