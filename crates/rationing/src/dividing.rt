// What all rules share but how they divide: they ask whether the claims are admitted, and give each its claim where the amount allows.
ghost use Rattle.std.specs.Prelude.{◌≡◌, List, length};
ghost use Rattle.energy.specs.declared.unit.Kwh.{Kwh};
ghost use Rattle.rationing.specs.Quota.{Quota, whole_or};

use crate::admission::admitted_sum;
use crate::refusal::RationingRefusal;
use crate::rule::RationingRule;
use crate::shortfall::Shortfall;
use crate::uncovered::Uncovered;
use energy::Kwh;

/// How a rule divides an amount that does not cover the claims.
pub trait Dividing {
    /// The awards that use up a smaller amount.
    ghost divides: { Self → Kwh → List Kwh → List Kwh };

    /// Writes these awards into `out`.
    fn divide(&self, uncovered: Uncovered, out: &mut [Kwh])
        requires { length out.old ≡ length uncovered.claims.now }
        ensures { out.new ≡ divides self.now uncovered.entry.shortfall.amount uncovered.entry.claims.now };

    /// With each claim whole where the amount covers the claims, it keeps the quota law.
    ghost quota: { (rule : Self) (amount : Kwh) (claims : List Kwh) → Quota amount claims (whole_or (divides rule) amount claims) };
}

/// Whatever divides so is a rule: it gives each its claim where the amount covers the claims.
impl<D: Dividing> RationingRule for D {
    ghost awards = { λ rule. whole_or (D.divides rule) };

    ghost quota = { λ rule amount claims. D.quota rule amount claims };

    fn ration(&self, amount: Kwh, claims: &[Kwh], out: &mut [Kwh]) -> Result<(), RationingRefusal> {
        let sum = admitted_sum(claims, out.len())?;
        if sum <= amount {
            out.copy_from_slice(claims);
        } else {
            let shortfall = Shortfall { amount, sum };
            self.divide(Uncovered { shortfall, claims }, out);
        }
        Ok(())
    }
}
