// The questions of a detail line that the register answers.
ghost use Rattle.std.specs.Prelude.{◌≡◌};
ghost use Rattle.std.specs.Result.{result_map_both};
ghost use Rattle.energy.specs.PartyCodes.{code_text};
ghost use Rattle.nomination.specs.ValuesHeld.{detail_said, values_said};
ghost use Rattle.intake.specs.Asked.{day_asked, filer_asked};
ghost use Rattle.intake.specs.Filing.{filing_side, registered, row_said};

use crate::fault::{FileFault, RegisterFault};
use crate::filing::Filing;
use book::{FiledEntry, FiledKind, FiledRow, Flag, Row};
use energy::{PartyCode, Side};
use nomination::{Detail, TextFault, Values};

// Each clause spells out that a result has an entry's row: a definition would still be handed `λ e. e.row`.
impl Filing<'_> {
    /// The row that a line files, by what the line says.
    pub(crate) fn row_said(&self, line: usize, values: Values) -> Result<FiledEntry, FileFault>
        ensures { result_map_both (λ e. e.row) (λ fault. fault) result ≡ row_said (day_asked self.now.day) (filer_asked self.now) line (values_said values) }
    {
        match values {
            Values::Heading(_) => Err(TextFault::BadLine { line }.into()),
            Values::Trading(detail, flag) => Ok(self.registered(
                line,
                FiledKind::Trade,
                flag,
                detail,
            )?),
            Values::Matching(detail) => Ok(self.registered(
                line,
                FiledKind::Match,
                Flag::Brown,
                detail,
            )?),
        }
    }

    /// The row of a trade or match, where the register and the day allow it.
    fn registered(
        &self,
        line: usize,
        kind: FiledKind,
        flag: Flag,
        detail: Detail,
    ) -> Result<FiledEntry, RegisterFault>
        ensures { result_map_both (λ e. e.row) (λ fault. fault) result ≡ registered (day_asked self.now.day) (filer_asked self.now) line kind flag (detail_said detail) }
    {
        let register = self.day.register;
        let north = register
            .find_on(Side::Northern, detail.north())
            .ok_or(RegisterFault::UnknownNorth { line })?;
        let south = register
            .find_on(Side::Southern, detail.south())
            .ok_or(RegisterFault::UnknownSouth { line })?;
        let filer = filing_side(self.filer, detail).ok_or(RegisterFault::AbsentFiler { line })?;
        if detail.period() > self.day.terms.length.periods() {
            return Err(RegisterFault::NoSuchPeriod { line });
        }
        let row = FiledRow {
            filer,
            kind,
            period: detail.period(),
            north,
            south,
            ns: detail.ns(),
            sn: detail.sn(),
            flag,
        };
        Ok(row.entry().unwrap())
    }
}

/// The side as which a party files a line, where it is one of the two parties.
fn filing_side(filer: PartyCode, detail: Detail) -> Option<Side>
    ensures { result ≡ filing_side (code_text filer) (detail_said detail) }
{
    if filer == detail.north() {
        Some(Side::Northern)
    } else if filer == detail.south() {
        Some(Side::Southern)
    } else {
        None
    }
}
