// The limits that every kind of entry keeps.

use energy::Kwh;

/// Parties of a side are numbered from 0, and there are at most 16.
pub const LAST_PARTY: u8 = 15;

/// The most that one amount can be.
pub const MOST_KWH: Kwh = Kwh(9_999_999);
