// What is in force in one period.
ghost use Rattle.std.specs.Prelude.{◌≡◌};
ghost use Rattle.register.specs.PeriodRows.{plain_row, ntc_in, with_ntc, with_service, with_rate};

use energy::{Direction, Mw, Rate};

/// The net transfer capacity of each direction, whether the link is in service, and the rate if one was posted.
// A field for each direction, and no array of both: an index would rest on the order of the variants of `Direction`.
#[derive(Clone, Copy)]
pub(crate) struct PeriodRow {
    ns_ntc: Mw,
    sn_ntc: Mw,
    service: bool,
    rate: Option<Rate>,
}

impl PeriodRow {
    /// What is in force before anything is posted.
    pub(crate) fn plain() -> PeriodRow
        ensures { result ≡ plain_row }
    {
        PeriodRow {
            ns_ntc: Mw(0),
            sn_ntc: Mw(0),
            service: true,
            rate: None,
        }
    }

    /// The net transfer capacity of a direction.
    pub(crate) fn ntc(self, direction: Direction) -> Mw
        ensures { result ≡ ntc_in direction self }
    {
        match direction {
            Direction::NorthSouth => self.ns_ntc,
            Direction::SouthNorth => self.sn_ntc,
        }
    }

    /// Whether the link is in service.
    pub(crate) fn in_service(self) -> bool
        ensures { result ≡ self.service }
    {
        self.service
    }

    /// The rate, if one was posted.
    pub(crate) fn rate(self) -> Option<Rate>
        ensures { result ≡ self.rate }
    {
        self.rate
    }

    /// Posts the net transfer capacity of a direction.
    pub(crate) fn post_ntc(&mut self, direction: Direction, ntc: Mw)
        ensures { self.new ≡ with_ntc direction ntc self.old }
    {
        match direction {
            Direction::NorthSouth => self.ns_ntc = ntc,
            Direction::SouthNorth => self.sn_ntc = ntc,
        }
    }

    /// Takes the link into service, or out of it.
    pub(crate) fn set_service(&mut self, on: bool)
        ensures { self.new ≡ with_service on self.old }
    {
        self.service = on;
    }

    /// Posts the rate.
    pub(crate) fn post_rate(&mut self, rate: Rate)
        ensures { self.new ≡ with_rate rate self.old }
    {
        self.rate = Some(rate);
    }
}
