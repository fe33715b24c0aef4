//! Describes options and commands as tables, and makes the parser of `clap` from them.

use clap::{Arg, ArgAction, Command, Error, value_parser};
use std::alloc::{AllocError, Global};

/// The kind of value that an option takes. The text in a variant is the value's name in the help.
#[derive(Clone, Copy)]
pub enum Takes {
    /// No value: the option is a flag.
    Nothing,
    Text(&'static str),
    /// A text that is given by its position, without the option's name.
    Place(&'static str),
    /// A number from 0 to 2^31 - 1.
    Number(&'static str),
    /// A number from 0 to 2^63 - 1.
    Bytes(&'static str),
    /// A number from 1 to the number in the second field.
    Count(&'static str, u32),
}

/// An option of a command, as the help and the parser need it.
#[derive(Clone, Copy)]
pub struct CommandOption {
    /// The name of the option, without the dashes.
    pub name: &'static str,
    pub takes: Takes,
    pub is_required: bool,
    /// Another option that must be given with this option, or `None` if no other option is needed.
    pub needs: Option<&'static str>,
    /// True if no other option may be given with this one.
    pub is_alone: bool,
    /// The default value, as the help shows it, or `None` if the option has no default.
    pub standard: Option<&'static str>,
    pub help: &'static str,
}

impl CommandOption {
    /// Returns true if the option takes a number: [`Takes::Number`], [`Takes::Bytes`] or [`Takes::Count`].
    pub fn is_number(&self) -> bool {
        matches!(
            self.takes,
            Takes::Number(_) | Takes::Bytes(_) | Takes::Count(..)
        )
    }
}

/// A flag with an empty name and an empty help text. Other options are made from this one with `..OPTION`.
pub const OPTION: CommandOption = CommandOption {
    name: "",
    takes: Takes::Nothing,
    is_required: false,
    needs: None,
    is_alone: false,
    standard: None,
    help: "",
};

fn taking<'a>(arg: Arg<'a>, takes: Takes) -> Arg<'a> {
    match takes {
        Takes::Nothing => arg.action(ArgAction::SetTrue),
        Takes::Text(name) | Takes::Place(name) => arg.value_name(name),
        Takes::Number(name) => arg
            .value_name(name)
            .value_parser(value_parser!(i32).range(0..)),
        Takes::Bytes(name) => arg
            .value_name(name)
            .value_parser(value_parser!(i64).range(0..)),
        Takes::Count(name, most) => arg
            .value_name(name)
            .value_parser(value_parser!(u32).range(1..=i64::from(most))),
    }
}

// Makes the argument of `clap` that has the option's name and help.
fn named<'a>(alloc: Global, option: &CommandOption) -> Arg<'a> {
    let arg = Arg::new(alloc, option.name).help(option.help);
    match option.takes {
        Takes::Place(_) => arg,
        _ => arg.long(option.name),
    }
}

fn with_standard<'a>(arg: Arg<'a>, standard: Option<&'static str>) -> Arg<'a> {
    match standard {
        Some(value) => arg.default_value(value),
        None => arg,
    }
}

fn arg<'a>(alloc: Global, option: &CommandOption) -> Result<Arg<'a>, AllocError> {
    let arg = taking(named(alloc, option), option.takes)
        .required(option.is_required)
        .exclusive(option.is_alone);
    let arg = with_standard(arg, option.standard);
    match option.needs {
        Some(other) => arg.requires_arg(other),
        None => Ok(arg),
    }
}

fn args<'a>(alloc: Global, options: &[CommandOption]) -> Result<Vec<Arg<'a>>, Error> {
    let mut args = Vec::new(alloc);
    for option in options {
        args.push(arg(alloc, option)?)?;
    }
    Ok(args)
}

/// A command of a program, with its options.
#[derive(Clone, Copy)]
pub struct Subcommand {
    pub name: &'static str,
    pub about: &'static str,
    pub options: &'static [CommandOption],
    /// More options of the command, which several commands share.
    pub shared: &'static [CommandOption],
}

/// The command line of a program: its options and its commands.
#[derive(Clone, Copy)]
pub struct CommandLine<'l> {
    /// The name of the program, as the help shows it.
    pub name: &'static str,
    pub version: &'static str,
    pub about: &'static str,
    /// The options that are given without a command.
    pub options: &'static [CommandOption],
    pub subcommands: &'l [Subcommand],
}

fn command_of<'a>(alloc: Global, subcommand: &Subcommand) -> Result<Command<'a>, Error> {
    let command = Command::new(alloc, subcommand.name)
        .about(subcommand.about)
        .args(args(alloc, subcommand.options)?)?;
    Ok(command.args(args(alloc, subcommand.shared)?)?)
}

fn commands_of<'a>(alloc: Global, subcommands: &[Subcommand]) -> Result<Vec<Command<'a>>, Error> {
    let mut commands = Vec::new(alloc);
    for subcommand in subcommands {
        commands.push(command_of(alloc, subcommand)?)?;
    }
    Ok(commands)
}

/// Makes the command of `clap` that parses a command line.
///
/// # Errors
///
/// If memory is refused.
pub(crate) fn root_command<'a>(
    alloc: Global,
    line: &CommandLine<'_>,
) -> Result<Command<'a>, Error> {
    let command = Command::new(alloc, line.name)
        .version(line.version)
        .about(line.about)
        .args_conflicts_with_subcommands(!line.options.is_empty())
        .args(args(alloc, line.options)?)?;
    Ok(command.subcommands(commands_of(alloc, line.subcommands)?)?)
}
