// What the user's words ask for.
ghost use Rattle.std.specs.Prelude.{◌≡◌, IfOk, Some, None, Ok, string_bytes, codes, ◌≢◌};
ghost use Rattle.tizgrel.specs.Names.{register_chosen, running_chosen};
ghost use Rattle.tizgrel.specs.Numbers.{whole_number};

use crate::complaint::Complaint;
use crate::number::whole_number;
use energy::Kwh;
use rationing::{ChosenRule, RegisterRule, RunningRule};
use std::alloc::Global;

/// What the words ask for.
#[derive(Drop)]
pub enum Command {
    Help,
    Ration {
        rule: ChosenRule,
        amount: Kwh,
        claims: Vec<Kwh>,
    },
}

pub(crate) fn read_command(heap: Global, words: &[String]) -> Result<Command, Complaint> {
    let [first, rest @ ..] = words else {
        return Err(Complaint::NoCommand);
    };
    match first.as_str() {
        "--help" if rest.is_empty() => Ok(Command::Help),
        "--help" => Err(Complaint::TooManyWords),
        "ration" => read_ration(heap, rest),
        _ => Err(Complaint::UnknownCommand(first.clone()?)),
    }
}

fn read_ration(heap: Global, words: &[String]) -> Result<Command, Complaint> {
    let [name, rest @ ..] = words else {
        return Err(Complaint::NoRule);
    };
    let Some(rule) = rule_named(name.as_str()) else {
        return Err(Complaint::UnknownRule(name.clone()?));
    };
    let [amount, claims @ ..] = rest else {
        return Err(Complaint::NoAmount);
    };
    let amount = read_kwh(amount)?;
    let claims = claims.iter().map(read_kwh).try_collect(heap)?;
    Ok(Command::Ration {
        rule,
        amount,
        claims,
    })
}

/// The rule of that name.
fn rule_named(word: &str) -> Option<ChosenRule>
    ensures register { word.now ≡ codes "register" → result ≡ Some register_chosen }
    ensures running { word.now ≡ codes "running" → result ≡ Some running_chosen }
    ensures other { (word.now ≢ codes "register") → (word.now ≢ codes "running") → result ≡ None }
{
    match word {
        "register" => Some(ChosenRule::Register(RegisterRule)),
        "running" => Some(ChosenRule::Running(RunningRule)),
        _ => None,
    }
}

/// The energy that a word names in kWh.
fn read_kwh(word: &String) -> Result<Kwh, Complaint>
    ensures { IfOk result (λ energy. whole_number (string_bytes word.now) ≡ Ok energy.0) }
{
    // By match: `try_map_err(|fault| Ok(Complaint::NotANumber(word.clone()?, fault)))` says no more.
    match whole_number(word.as_str()) {
        Ok(number) => Ok(Kwh(number)),
        Err(fault) => Err(Complaint::NotANumber(word.clone()?, fault)),
    }
}
