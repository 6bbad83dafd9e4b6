// One amount shared out, with what each claim gets and why.
ghost use Rattle.std.specs.Prelude.{◌≡◌, length, if◌then◌else◌};
ghost use Rattle.rationing.specs.Admission.{admission, admits};

use crate::award_line::AwardLine;
use crate::complaint::Complaint;
use energy::{Kwh, total};
use rationing::{ChosenRule, RationingRefusal, RationingRule, exact_share};

pub(crate) fn print_ration(
    rt: &HostRuntime,
    rule: &ChosenRule,
    amount: Kwh,
    claims: &[Kwh],
) -> Result<(), Complaint> {
    let mut shared = vec![in rt.alloc(); Kwh(0); claims.len()]?;
    match share_out(rule, amount, claims, shared.as_mut_slice()) {
        Ok(sum) => print_awards(rt, amount, sum, claims, shared.as_slice()),
        Err(refusal) => Ok(rt.println(refusal)?),
    }
}

/// Writes the awards, and gives the sum of the claims; or refuses and writes nothing.
fn share_out<R: RationingRule>(
    rule: &R,
    amount: Kwh,
    claims: &[Kwh],
    out: &mut [Kwh],
) -> Result<Kwh, RationingRefusal>
    ensures answer { result ≡ admission claims.now (length out.old) }
    ensures written { out.new ≡ (if admits claims.now (length out.old) then R.awards rule.now amount claims.now else out.old) }
{
    rule.ration(amount, claims, out)?;
    Ok(total(claims).unwrap())
}

fn print_awards(
    rt: &HostRuntime,
    amount: Kwh,
    sum: Kwh,
    claims: &[Kwh],
    awards: &[Kwh],
) -> Result<(), Complaint> {
    println!(rt; "amount {amount}")?;
    println!(rt; "sum {sum}")?;
    for (place, (claim, award)) in (1u64..).zip(claims.iter().zip(awards)) {
        rt.println(AwardLine {
            place,
            claim: *claim,
            share: exact_share(amount, *claim, sum),
            award: *award,
        })?;
    }
    Ok(())
}
