// What is proved of the calendar as a whole.
ghost use Rattle.calendar.specs.Theorems.{Faithful, Consecutive, Unbroken, Round, Octobers, YearEnd, Worked};

/// The calendar's theorems stand: a proof and no work, so that the crate fails without them.
pub fn calendar_stands() -> u8
    ensures faithful { Faithful }
    ensures consecutive { Consecutive }
    ensures unbroken { Unbroken }
    ensures round { Round }
    ensures octobers { Octobers }
    ensures year_end { YearEnd }
    ensures worked { Worked }
{
    0
}
