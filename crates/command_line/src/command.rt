//! Parses the arguments of a program, and prints help and the version.

ghost use Rattle.std.specs.Prelude.{◌≡◌, IfErr, IfOk};
ghost use Rattle.command_line.specs.Statuses.{arguments_status};
ghost use Rattle.command_line.specs.declared.command.ArgumentsFault.TheVariants.{NoMemory, Refused};

use crate::options::{CommandLine, root_command};
use clap::error::ErrorKind as ClapKind;
use clap::{ArgMatches, Error as ClapError};
use std::alloc::{AllocError, Global};
use std::env;
use std::io::{self, ErrorKind};
use thiserror::Error;

/// The reason why the arguments are refused. Its `Display` is the line on standard error.
#[derive(Debug, Drop, Error)]
pub enum ArgumentsFault {
    /// An argument is not UTF-8.
    #[error("a word is no text")]
    NotText,
    /// The arguments are not a valid command line. The value is the line about them.
    #[error("{0}")]
    Refused(String),
    /// Help or the version could not be written.
    #[error("a write to standard output failed")]
    WriteFailed,
    /// Memory was refused for the arguments, for the commands that parse them, or for the line about them.
    #[error("out of memory")]
    NoMemory,
}

impl ArgumentsFault {
    /// Returns the fault of refused arguments with this line, or [`ArgumentsFault::NoMemory`] if memory for
    /// the line was refused.
    pub fn refused(line: Result<String, AllocError>) -> ArgumentsFault
        ensures refused { IfOk line (λ text. result ≡ Refused text) }
        ensures memory { IfErr line (λ _. result ≡ NoMemory) }
    {
        match line {
            Ok(line) => ArgumentsFault::Refused(line),
            Err(_) => ArgumentsFault::NoMemory,
        }
    }

    /// Returns the exit status of the program for this fault: 2 if the arguments are refused, 5 if help or
    /// the version could not be written, 6 if memory was refused.
    pub fn status(&self) -> u8
        ensures { result ≡ arguments_status self.now }
    {
        match self {
            ArgumentsFault::NotText | ArgumentsFault::Refused(_) => 2,
            ArgumentsFault::WriteFailed => 5,
            ArgumentsFault::NoMemory => 6,
        }
    }
}

fn collected(rt: &HostRuntime) -> io::Result<Vec<String>> {
    let arguments: Vec<String> = env::args(rt)?.collect(rt.alloc())?;
    Ok(arguments)
}

/// Returns the words of the command line. The first word is the name of the program.
///
/// # Errors
///
/// If a word is not UTF-8, or memory is refused.
pub fn arguments(rt: &HostRuntime) -> Result<Vec<String>, ArgumentsFault> {
    match collected(rt) {
        Ok(arguments) => Ok(arguments),
        Err(error) if error.kind() == ErrorKind::OutOfMemory => Err(ArgumentsFault::NoMemory),
        Err(_) => Err(ArgumentsFault::NotText),
    }
}

// Appends the first paragraph of a `clap` error as one line, without the word `error` at its start.
fn push_first_paragraph(line: &mut String, text: &str) -> Result<(), AllocError> {
    for part in text.lines() {
        if part.is_empty() {
            break;
        }
        if !line.is_empty() {
            line.push(' ')?;
        }
        let part = part.trim();
        line.push_str(part.strip_prefix("error: ").unwrap_or(part))?;
    }
    Ok(())
}

// Appends the tips in which `clap` proposes similar words for a misspelt word, if there are any.
fn push_similar(line: &mut String, text: &str) -> Result<(), AllocError> {
    for part in text.lines() {
        let tip = part.trim().strip_prefix("tip: ").unwrap_or("");
        if tip.starts_with("a similar ") || tip.starts_with("some similar ") {
            line.push_str("; ")?;
            line.push_str(tip)?;
        }
    }
    Ok(())
}

// Returns the line that says why arguments are refused.
fn refusal_line(alloc: Global, error: &ClapError) -> Result<String, AllocError> {
    let text = format!(in alloc; "{error}")?;
    let mut line = String::new(alloc);
    push_first_paragraph(&mut line, text.as_str())?;
    push_similar(&mut line, text.as_str())?;
    Ok(line)
}

// Prints help or the version. A reader of standard output that goes away, as `head` does, is no failure.
fn print(rt: &HostRuntime, text: &ClapError) -> Result<(), ArgumentsFault> {
    match text.print(rt) {
        Ok(()) => Ok(()),
        Err(error) if error.kind() == ErrorKind::BrokenPipe => Ok(()),
        Err(_) => Err(ArgumentsFault::WriteFailed),
    }
}

// Prints help or the version if the arguments ask for it. Otherwise returns why the arguments are refused.
fn end(rt: &HostRuntime, error: &ClapError) -> Result<(), ArgumentsFault> {
    match error.kind() {
        ClapKind::OutOfMemory => Err(ArgumentsFault::NoMemory),
        ClapKind::DisplayHelp | ClapKind::DisplayVersion => print(rt, error),
        _ => Err(ArgumentsFault::refused(refusal_line(rt.alloc(), error))),
    }
}

/// Parses the arguments. Returns `None` if they ask for help or the version, which is then printed.
///
/// # Errors
///
/// If the arguments do not fit the command line, printing fails other than by a reader that goes away, or
/// memory is refused.
pub fn matches<'a>(
    rt: &HostRuntime,
    line: &CommandLine<'_>,
    arguments: &'a [String],
) -> Result<Option<ArgMatches<'a>>, ArgumentsFault> {
    match matched(rt.alloc(), line, arguments) {
        Ok(matches) => Ok(Some(matches)),
        Err(error) => {
            end(rt, &error)?;
            Ok(None)
        }
    }
}

fn matched<'a>(
    alloc: Global,
    line: &CommandLine<'_>,
    arguments: &'a [String],
) -> Result<ArgMatches<'a>, ClapError> {
    root_command(alloc, line)?.try_get_matches_from(arguments)
}
