// What the program tells a user whose words it cannot follow.
use crate::number::NumberFault;
use std::alloc::AllocError;
use std::io;
use thiserror::Error;

/// Why the program cannot do what its words ask.
#[derive(Debug, Drop, Error)]
pub enum Complaint {
    #[error("no command is given; see tizgrel --help")]
    NoCommand,
    #[error("unknown command '{0}'; see tizgrel --help")]
    UnknownCommand(String),
    #[error("--help takes no further words")]
    TooManyWords,
    #[error("ration wants a rule, an amount and claims")]
    NoRule,
    #[error("unknown rule '{0}': it is register or running")]
    UnknownRule(String),
    #[error("ration wants an amount after the rule")]
    NoAmount,
    #[error("'{0}' is {1}")]
    NotANumber(String, NumberFault),
    #[error("out of memory")]
    Memory(#[from] AllocError),
    #[error(transparent)]
    Outside(#[from] io::Error),
}
