//! Parses the command line of `csid` and runs its task: answers calls, or checks, copies or lists tables.

ghost use Rattle.std.specs.Prelude.{IfErr};
ghost use Rattle.csid_settings.specs.Statuses.{IsOrNoMemory};

use crate::checks::{check_tables, copy_tables, list_tables};
use crate::places::{check_copy_place, check_socket_place};
use crate::room::MemoryGauge;
use crate::serving::{SilentObserver, TablesFailure, TablesRun};
use crate::socket::serve_socket;
use clap::ArgMatches;
use command_line::{ArgumentsFault, arguments};
use csi_config::Config;
use csi_files::RunReport;
use csi_memory::MemKeeper;
use csi_server::serve;
use csid_console::Console;
use csid_listings::check_config;
use csid_settings::{
    Endpoint, Failure, Piped, TablesFile, Task, configuration, odd_check, odd_number, odd_store,
    outcome, read_arguments, task_of,
};
use sqlite::Unknown;
use std::alloc::Global;
use std::mem::forget;

/// The number that the first volume gets if the volumes are in memory.
pub(crate) const FIRST_NUMBER: u64 = 1;

// Answers the calls on standard input over volumes in memory.
fn pipe_over_memory(rt: &HostRuntime, config: &Config) -> Result<(), Failure> {
    let mut keeper = MemKeeper::new(rt.alloc(), FIRST_NUMBER)?;
    let mut reader = rt.stdin();
    let mut writer = rt.stdout();
    let end = serve(rt.alloc(), config, &mut keeper, &mut reader, &mut writer);
    // The program ends here, and the system releases its memory at once. Releasing many volumes one by one
    // would only delay the end.
    forget(keeper);
    outcome(Endpoint::Pipe, end)
}

// Returns the outcome of the calls on standard input. A failure of the tables is returned in place of a
// failure of the calls, which is then only reported.
fn pipe_outcome(
    console: &Console<'_>,
    ended: Result<RunReport, TablesFailure>,
) -> Result<(), Failure> {
    let TablesFailure { cause, report } = match ended {
        Ok(report) => return outcome(Endpoint::Pipe, report.end),
        Err(failure) => failure,
    };
    if let Some(report) = report {
        if let Err(failure) = outcome(Endpoint::Pipe, report.end) {
            console.say(&failure);
        }
    }
    Err(cause)
}

// Answers the calls on standard input over volumes in a file.
fn pipe_over_tables(
    console: &Console<'_>,
    config: &Config,
    file: TablesFile<'_>,
) -> Result<(), Failure> {
    let gauge = MemoryGauge::new(console.rt);
    let observer = SilentObserver { gauge: &gauge };
    let run = TablesRun {
        rt: *console.rt,
        config,
        file,
        observer: &observer,
    };
    let mut reader = console.rt.stdin();
    let mut writer = console.rt.stdout();
    pipe_outcome(
        console,
        run.serve_file(Unknown, &[], &mut reader, &mut writer),
    )
}

// Answers the calls on standard input over volumes in a file, or in memory if no file is given.
fn answer_pipe(console: &Console<'_>, pipe: &Piped<'_>) -> Result<(), Failure> {
    let config = configuration(console, pipe.config, false)?;
    match pipe.tables {
        Some(file) => pipe_over_tables(console, &config, file),
        None => pipe_over_memory(console.rt, &config),
    }
}

// Returns the failure for an option whose value is not a number in decimal digits.
fn refused_number(alloc: Global, option: &str, number: &str) -> Failure
    ensures { IsOrNoMemory 2 result }
{
    let line = format!(in alloc;
        "invalid value '{number}' for '{option}': not decimal digits alone"
    );
    Failure::Arguments(ArgumentsFault::refused(line))
}

/// Returns the failure for options that exclude each other, or for a missing option. `why` is the line about
/// them.
pub(crate) fn refused_options(alloc: Global, why: &str) -> Failure
    ensures { IsOrNoMemory 2 result }
{
    Failure::Arguments(ArgumentsFault::refused(format!(in alloc; "{why}")))
}

// Returns the task that the arguments describe. Fails if a number is not written in decimal digits alone, if
// options exclude each other, if an option is missing, or if memory for the line about this is refused.
fn task<'a>(alloc: Global, arguments: &ArgMatches<'a>) -> Result<Task<'a>, Failure> {
    if let Some((option, number)) = odd_number(arguments) {
        return Err(refused_number(alloc, option, number));
    }
    match odd_check(arguments).or_else(|| odd_store(arguments)) {
        Some(why) => Err(refused_options(alloc, why)),
        None => Ok(task_of(arguments)),
    }
}

/// Runs the program: does the task that its arguments describe.
///
/// # Errors
///
/// Returns the failure, which gives the program its exit status. The caller reports the failure.
pub(crate) fn run(console: &Console<'_>) -> Result<(), Failure> {
    let arguments = arguments(console.rt)?;
    let Some(matches) = read_arguments(console.rt, arguments.as_slice())? else {
        return Ok(());
    };
    match task(console.rt.alloc(), &matches)? {
        Task::Pipe(pipe) => answer_pipe(console, &pipe),
        Task::Serve(serving) => {
            check_socket_place(console.rt, &serving)?;
            let config = configuration(console, serving.config, true)?;
            let gauge = MemoryGauge::new(console.rt);
            serve_socket(console, &config, &gauge, &serving)
        }
        Task::CheckConfig(path) => check_config(console, path),
        Task::CheckTables { tables, config } => check_tables(console, tables, config),
        Task::CopyTables { tables, to, config } => {
            check_copy_place(console.rt, tables, to)?;
            copy_tables(console, tables, to, config)
        }
        Task::ListTables {
            tables,
            chosen,
            is_json,
        } => list_tables(console, tables, &chosen, is_json),
    }
}
