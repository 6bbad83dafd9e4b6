// The line that tells a claimant what it gets.
ghost use Rattle.std.specs.Prelude.{Some};
ghost use Rattle.tizgrel.specs.Lines.{award_text};

use energy::Kwh;
use rationing::ExactShare;
use std::fmt;

#[derive(Clone, Copy)]
pub struct AwardLine {
    pub place: u64,
    pub claim: Kwh,
    pub share: ExactShare,
    pub award: Kwh,
}

impl fmt::Display for AwardLine {
    ghost output = { λ line. Some (award_text line) };

    fn fmt<W: fmt::Write>(&self, f: &mut fmt::Formatter<W>) -> fmt::Result {
        let AwardLine {
            place,
            claim,
            share,
            award,
        } = *self;
        write!(
            f,
            "claim {place}: {claim}, exact share {share}, award {award}"
        )
    }
}
