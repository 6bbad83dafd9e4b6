// A direction that is cut, and the steps from its trades to its allocations.
ghost use Rattle.std.specs.Prelude.{◌≡◌, ℕ, ◌+◌, ◌-◌, ◌<◌, ◌≤◌, ◌^◌};
ghost use Rattle.energy.specs.Grids.{figure_at, sum_to};
ghost use Rattle.allocation.specs.Allocation.{traded, matched, award, entitled, kept, lacking, left, granted, rationed};
ghost use Rattle.allocation.specs.Tables.{way_of};
ghost use Rattle.allocation.specs.Told.{grid_at, IsRow};

use crate::share::share;
use crate::square::{Square, sum_of};
use crate::table::Table;
use energy::Kwh;
use rationing::RationingRule;
use std::array;

/// A direction that is cut, beside the rule that shares and the total of the trade against the flow,
/// which is at least what the senders matched.
#[derive(Drop)]
pub struct Cut<'a, R> {
    pub rule: &'a R,
    pub table: &'a Table,
    pub against: Kwh,
    ghost covered: { sum_to table.now.senders (matched (way_of table.now)) ≤ against.0 },
    ghost small: { against.0 ≤ 2559999744 },
}

impl<R: RationingRule> Cut<'_, R> {
    /// The allocations: each sender's grant goes to its trades with each receiver.
    pub fn allocations(&self) -> Square
        ensures { (i j : ℕ) → i < self.now.table.now.senders → j < self.now.table.now.receivers → grid_at result i j ≡ rationed (R.awards self.now.rule.now) (way_of self.now.table.now) self.now.against.0 i j }
    {
        let grants = self.granted_by_all();
        array::from_fn(
            |i|
                requires { i < 16 }
                ensures { i < self.entry.now.table.now.senders → figure_at result ≡ award (R.awards self.entry.now.rule.now) (figure_at grants i) self.entry.now.table.now.receivers (grid_at self.entry.now.table.now.trade i) }
            {
                // The rule is asked for registered senders alone.
                if i < self.table.senders {
                    self.given_by(i, grants[i])
                } else {
                    [Kwh(0); 16]
                }
            },
        )
    }

    /// What a sender's trades with each receiver get of its grant.
    fn given_by(&self, i: usize, grant: Kwh) -> [Kwh; 16]
        requires { i < 16 }
        ensures { figure_at result ≡ award (R.awards self.now.rule.now) grant.0 self.now.table.now.receivers (grid_at self.now.table.now.trade i) }
    {
        share(
            self.rule,
            grant,
            &self.table.trade[i][..self.table.receivers],
        )
    }

    /// What each sender gets: what it keeps, and its award of the rest.
    fn granted_by_all(&self) -> [Kwh; 16]
        ensures { IsRow result (granted (R.awards self.now.rule.now) (way_of self.now.table.now) self.now.against.0) }
    {
        let held = self.kept_by_all();
        added(&held, &self.awarded_of_rest(&held))
    }

    /// What each sender keeps with its award of the net transfer capacity.
    fn kept_by_all(&self) -> [Kwh; 16]
        ensures { IsRow result (kept (R.awards self.now.rule.now) (way_of self.now.table.now)) }
    {
        let first = self.entitled_by_all();
        array::from_fn(|i| self.table.kept_by(i, first[i]))
    }

    /// The awards of the net transfer capacity, with the entitlements as claims.
    fn entitled_by_all(&self) -> [Kwh; 16]
        ensures { figure_at result ≡ entitled (R.awards self.now.rule.now) (way_of self.now.table.now) }
    {
        share(
            self.rule,
            self.table.ntc,
            &self.table.entitlement[..self.table.senders],
        )
    }

    /// The awards of the rest, with what each sender lacks as claims.
    fn awarded_of_rest(&self, held: &[Kwh; 16]) -> [Kwh; 16]
        requires { IsRow held.now (kept (R.awards self.now.rule.now) (way_of self.now.table.now)) }
        ensures { figure_at result ≡ award (R.awards self.now.rule.now) (left (R.awards self.now.rule.now) (way_of self.now.table.now) self.now.against.0) self.now.table.now.senders (lacking (R.awards self.now.rule.now) (way_of self.now.table.now)) }
    {
        let short = self.lacking_by_all(held);
        share(self.rule, self.rest(held), &short[..self.table.senders])
    }

    /// What each sender still lacks of its trade.
    fn lacking_by_all(&self, held: &[Kwh; 16]) -> [Kwh; 16]
        requires { (k : ℕ) → k < 16 → figure_at held.now k ≤ traded (way_of self.now.table.now) k }
        ensures { (k : ℕ) → k < 16 → figure_at result k ≡ traded (way_of self.now.table.now) k - figure_at held.now k }
    {
        array::from_fn(|i| Kwh(self.table.traded_by(i).0 - held[i].0))
    }

    /// What the kept trade leaves of the net transfer capacity and of the trade against the flow.
    fn rest(&self, held: &[Kwh; 16]) -> Kwh
        requires { IsRow held.now (kept (R.awards self.now.rule.now) (way_of self.now.table.now)) }
        ensures { result.0 ≡ left (R.awards self.now.rule.now) (way_of self.now.table.now) self.now.against.0 }
    {
        rest_of(
            self.table.ntc,
            self.against,
            sum_of(&held[..self.table.senders]),
        )
    }
}

/// What is left of the net transfer capacity and the trade against the flow, past what is held.
fn rest_of(ntc: Kwh, against: Kwh, held: Kwh) -> Kwh
    requires within { held.0 ≤ ntc.0 + against.0 }
    requires capacity { ntc.0 ≤ 2147483647500 }
    requires small { against.0 ≤ 2559999744 }
    ensures { result.0 ≡ (ntc.0 + against.0) - held.0 }
{
    Kwh(ntc.0 + against.0 - held.0)
}

/// Two rows, added.
fn added(one: &[Kwh; 16], more: &[Kwh; 16]) -> [Kwh; 16]
    requires { (k : ℕ) → k < 16 → figure_at one.now k + figure_at more.now k < 2 ^ 64 }
    ensures { (k : ℕ) → k < 16 → figure_at result k ≡ figure_at one.now k + figure_at more.now k }
{
    array::from_fn(|i| Kwh(one[i].0 + more[i].0))
}
