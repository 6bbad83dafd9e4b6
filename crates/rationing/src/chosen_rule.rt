// A rule that is chosen at run time.
ghost use Rattle.rationing.specs.Chosen.{chosen};
ghost use Rattle.rationing.specs.declared.chosen_rule.ChosenRule.TheVariants.{Register, Running};
ghost use Rattle.rationing.specs.Handing.{register_quota};
ghost use Rattle.rationing.specs.Stepping.{running_quota};

use crate::refusal::RationingRefusal;
use crate::register_rule::RegisterRule;
use crate::rule::RationingRule;
use crate::running_rule::RunningRule;
use energy::Kwh;

/// One of the rules that stand ready.
// A closed set, which the call matches: a `dyn RationingRule` would not say which rules stand ready.
#[derive(Clone, Copy, PartialEq, Eq, Debug)]
pub enum ChosenRule {
    Register(RegisterRule),
    Running(RunningRule),
}

impl RationingRule for ChosenRule {
    ghost awards = { chosen };

    ghost quota = { elim [
      | Register rule ↦ λ amount claims. register_quota amount claims
      | Running rule ↦ λ amount claims. running_quota amount claims
    ] };

    fn ration(&self, amount: Kwh, claims: &[Kwh], out: &mut [Kwh]) -> Result<(), RationingRefusal> {
        match self {
            ChosenRule::Register(rule) => rule.ration(amount, claims, out),
            ChosenRule::Running(rule) => rule.ration(amount, claims, out),
        }
    }
}
