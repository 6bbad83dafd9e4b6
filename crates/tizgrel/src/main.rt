// The program: words from the command line to calls, answers to text.
#![tactic(auto)]

mod award_line;
mod command;
mod complaint;
mod number;
mod ration;

use command::{Command, read_command};
use complaint::Complaint;
use ration::print_ration;
use std::env;
use std::process::ExitCode;

const USAGE: &str = "usage: tizgrel ration RULE AMOUNT CLAIM...
       tizgrel --help

ration shares AMOUNT kWh out among the claims, in whole kWh.
  RULE    register: every share is rounded down, and the kWh left over go one each
          to the first claims whose share was not whole
          running: the amount is divided along the running sum of the claims
  AMOUNT  and each CLAIM are whole numbers of kWh below 2^64
It prints the amount, the sum of the claims, and for each claim its exact share and
its award. A rule answers at most 16 claims that sum to at most 2559999744 kWh;
others are refused with 20.";

fn main(rt: HostRuntime) -> ExitCode {
    match run(&rt) {
        Ok(()) => ExitCode::SUCCESS,
        Err(complaint) => {
            // Where standard error is closed too, the status still tells.
            let _ = eprintln!(rt; "tizgrel: {complaint}");
            ExitCode::FAILURE
        }
    }
}

fn run(rt: &HostRuntime) -> Result<(), Complaint> {
    let heap = rt.alloc();
    let words: Vec<String> = env::args(rt)?.skip(1).collect(heap)?;
    match read_command(heap, words.as_slice())? {
        Command::Help => rt.println(USAGE)?,
        Command::Ration {
            rule,
            amount,
            claims,
        } => print_ration(rt, &rule, amount, claims.as_slice())?,
    }
    Ok(())
}
