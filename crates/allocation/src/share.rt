// Asking the rationing rule.
ghost use Rattle.std.specs.Prelude.{◌≡◌, ◌≤◌, length};
ghost use Rattle.energy.specs.Grids.{figure_at};
ghost use Rattle.energy.specs.Totals.{sum_kwh};

use energy::Kwh;
use rationing::RationingRule;

/// The awards of an amount among claims, and nil past them. These claims are within the limits of every
/// rule, so that none refuses them.
pub fn share<R: RationingRule>(rule: &R, amount: Kwh, claims: &[Kwh]) -> [Kwh; 16]
    requires few { length claims.now ≤ 16 }
    requires small { sum_kwh claims.now ≤ 2559999744 }
    ensures { figure_at result ≡ figure_at (R.awards rule.now amount claims.now) }
{
    let mut out = [Kwh(0); 16];
    rule.ration(amount, claims, &mut out[..claims.len()])
        .unwrap();
    out
}
