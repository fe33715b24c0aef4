//! The number of tries of a call, and the time limit of each try.

ghost use Rattle.std.specs.Prelude.{◌≤◌};

use crate::command::{MOST_TRIES, TIMEOUT, TRIES};
use crate::failure::Failure;
use clap::ArgMatches;
use command_line::is_decimal;
use std::time::Duration;

/// The greatest number of tries of a call, and the time limit of each try. `None` means no time limit.
#[derive(Clone, Copy)]
pub(crate) struct Patience {
    pub(crate) tries: u32,
    pub(crate) timeout: Option<Duration>,
    ghost least: { 1 ≤ tries },
    ghost most: { tries ≤ 10 },
}

// Returns the number in an option, or `None` if the option is not given.
fn number(arguments: &ArgMatches<'_>, name: &'static str) -> Result<Option<u32>, Failure> {
    match arguments.get_str(name) {
        Some(text) if !is_decimal(text) => Err(Failure::NotDecimal(name)),
        _ => Ok(arguments.get_one::<u32>(name)),
    }
}

impl Patience {
    /// Reads the number of tries and the time limit from the arguments. By default there is one try without a
    /// time limit.
    ///
    /// # Errors
    ///
    /// If a number is not written in decimal digits alone.
    pub(crate) fn of(arguments: &ArgMatches<'_>) -> Result<Patience, Failure> {
        let tries = number(arguments, TRIES)?.unwrap_or(1).clamp(1, MOST_TRIES);
        let timeout = number(arguments, TIMEOUT)?.map(|seconds| Duration::from_secs(u64::from(
            seconds,
        )));
        Ok(Patience { tries, timeout })
    }
}
