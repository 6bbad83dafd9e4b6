// The edition of the prices that is fixed when a day opens.
ghost use Rattle.std.specs.Prelude.{Some};
ghost use Rattle.pricing.specs.Editions.{edition_spill, edition_makeup, edition_text};

use crate::edition3::Edition3;
use crate::edition4::Edition4;
use crate::makeup::Makeup;
use crate::price_edition::PriceEdition;
use crate::spill::Spilled;
use calendar::{Period, TradingDay};
use energy::Micropence;
use std::fmt;

// A closed set, which each call matches: a `dyn PriceEdition` would not say which editions a day can have.
/// One of the editions that a day can have.
#[derive(Clone, Copy, PartialEq, Eq, Debug)]
pub enum Edition {
    Third(Edition3),
    Fourth(Edition4),
}

impl PriceEdition for Edition {
    ghost spill_amount = { edition_spill };

    ghost makeup_charge = { edition_makeup };

    fn spill_amount(&self, day: TradingDay, spilled: Spilled) -> Micropence {
        match self {
            Edition::Third(edition) => edition.spill_amount(day, spilled),
            Edition::Fourth(edition) => edition.spill_amount(day, spilled),
        }
    }

    fn makeup_charge(&self, day: TradingDay, period: Period, makeup: Makeup) -> Micropence {
        match self {
            Edition::Third(edition) => edition.makeup_charge(day, period, makeup),
            Edition::Fourth(edition) => edition.makeup_charge(day, period, makeup),
        }
    }
}

impl fmt::Display for Edition {
    ghost output = { λ edition. Some (edition_text edition) };

    fn fmt<W: fmt::Write>(&self, f: &mut fmt::Formatter<W>) -> fmt::Result {
        f.write_str(match self {
            Edition::Third(_) => "3.0",
            Edition::Fourth(_) => "4.0",
        })
    }
}
