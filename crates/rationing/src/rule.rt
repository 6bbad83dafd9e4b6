// What a rationing rule is.
ghost use Rattle.std.specs.Prelude.{◌≡◌, List, length, if◌then◌else◌};
ghost use Rattle.energy.specs.declared.unit.Kwh.{Kwh};
ghost use Rattle.rationing.specs.Admission.{admits, answered};
ghost use Rattle.rationing.specs.Quota.{Quota};

use crate::refusal::RationingRefusal;
use energy::Kwh;

/// A way to share an amount out among claims in whole kWh.
// Each rule repeats the parameters of the call: they are the one interface of all rules.
pub trait RationingRule {
    /// The awards that answer an amount and a list of claims: the meaning of the rule.
    ghost awards: { Self → Kwh → List Kwh → List Kwh };

    /// Writes the awards for these claims into `out`, or refuses and writes nothing.
    fn ration(&self, amount: Kwh, claims: &[Kwh], out: &mut [Kwh]) -> Result<(), RationingRefusal>
        ensures answer { result ≡ answered (admits claims.now (length out.old)) }
        ensures written { out.new ≡ (if admits claims.now (length out.old) then awards self.now amount claims.now else out.old) };

    /// Every rule keeps the quota law, at every amount and every list of claims.
    ghost quota: { (rule : Self) (amount : Kwh) (claims : List Kwh) → Quota amount claims (awards rule amount claims) };
}
