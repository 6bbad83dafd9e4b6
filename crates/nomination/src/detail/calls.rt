// Trades and matches from their fields.
ghost use Rattle.std.specs.Prelude.{◌≡◌};
ghost use Rattle.std.specs.Option.{option_map};
ghost use Rattle.energy.specs.PartyCodes.{code_text};
ghost use Rattle.nomination.specs.RecordsSeen.{detail_seen};
ghost use Rattle.nomination.specs.Values.{detail_read, is_writable, writable};
ghost use Rattle.nomination.specs.ValuesHeld.{detail_said, said};

use crate::amount::read_amount;
use crate::detail::Detail;
use crate::fault::TextFault;
use crate::numbers::read_period;
use crate::record::DetailParts;
use energy::{Kwh, PartyCode};

/// The last period that two digits can name.
const LAST_PERIOD: u8 = 99;

/// The most that an amount can be.
const MOST_KWH: Kwh = Kwh(9_999_999);

impl Detail {
    /// What the parts of a trade or match on a line say, or the first bad field.
    pub(crate) fn read(parts: DetailParts<'_>, line: usize) -> Result<Detail, TextFault>
        ensures { said detail_said result ≡ detail_read line (detail_seen parts.entry) }
    {
        let bad = |field| TextFault::BadField { line, field };
        Ok(Detail {
            period: read_period(parts.period.bytes).ok_or(bad(2))?,
            north: PartyCode::read(parts.north.bytes).ok_or(bad(3))?,
            south: PartyCode::read(parts.south.bytes).ok_or(bad(4))?,
            ns: read_amount(parts.ns.bytes).ok_or(bad(5))?,
            sn: read_amount(parts.sn.bytes).ok_or(bad(6))?,
        })
    }

    /// The trade or match with these values, where a file can write them.
    pub fn new(period: u8, north: PartyCode, south: PartyCode, ns: Kwh, sn: Kwh) -> Option<Detail>
        ensures { option_map detail_said result ≡ writable period (code_text north) (code_text south) ns sn }
    {
        if is_writable(period, ns, sn) {
            Some(Detail {
                period,
                north,
                south,
                ns,
                sn,
            })
        } else {
            None
        }
    }

    /// Its period.
    pub fn period(self) -> u8
        ensures { result ≡ self.period }
    {
        self.period
    }

    /// The northern party's code.
    pub fn north(self) -> PartyCode
        ensures { result ≡ self.north }
    {
        self.north
    }

    /// The southern party's code.
    pub fn south(self) -> PartyCode
        ensures { result ≡ self.south }
    {
        self.south
    }

    /// The energy from north to south.
    pub fn ns(self) -> Kwh
        ensures { result ≡ self.ns }
    {
        self.ns
    }

    /// The energy from south to north.
    pub fn sn(self) -> Kwh
        ensures { result ≡ self.sn }
    {
        self.sn
    }
}

/// Whether a file can write these.
fn is_writable(period: u8, ns: Kwh, sn: Kwh) -> bool
    ensures { result ≡ is_writable period ns sn }
{
    (1..=LAST_PERIOD).contains(&period) && ns <= MOST_KWH && sn <= MOST_KWH
}
