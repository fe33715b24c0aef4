//! The command line of `csid`, and the tasks that it describes.

use clap::ArgMatches;
use command_line::{
    ArgumentsFault, CommandLine, CommandOption, OPTION, Subcommand, Takes, is_decimal,
};

/// The filter of a listing. A volume is listed if it meets each condition that is given.
#[derive(Clone, Copy)]
pub struct Chosen<'a> {
    /// The id of the volume that is listed, such as `vol-1`, or `None` for any id.
    pub id: Option<&'a str>,
    /// The name under which the listed volume was created, or `None` for any name.
    pub name: Option<&'a str>,
    /// The name of the pool whose volumes are listed, or `None` for any pool.
    pub pool: Option<&'a str>,
    /// The id of the node whose published volumes are listed, or `None` for all volumes, published or not.
    pub node: Option<&'a str>,
}

/// The task that the command line gives to `csid`. Without a command and an option, it is [`Task::Pipe`] over
/// volumes in memory.
#[derive(Clone, Copy)]
pub enum Task<'a> {
    /// Answer calls from standard input on standard output.
    Pipe(Piped<'a>),
    /// Answer the calls of connections to a socket, one connection at a time.
    Serve(Serving<'a>),
    /// Check the configuration in the file at this path.
    CheckConfig(&'a str),
    /// Check the tables of a file under a configuration.
    CheckTables {
        /// The path of the file.
        tables: &'a str,
        /// The file of the configuration, or `None` for the sample configuration.
        config: Option<&'a str>,
    },
    /// Copy the tables of a file into a new file.
    CopyTables {
        /// The path of the file.
        tables: &'a str,
        /// The path at which the copy is made.
        to: &'a str,
        /// The file of the configuration that checks the copy, or `None` for the sample configuration.
        config: Option<&'a str>,
    },
    /// List the volumes in the tables of a file.
    ListTables {
        /// The path of the file.
        tables: &'a str,
        /// The filter that volumes must pass to be listed.
        chosen: Chosen<'a>,
        /// True for a list in JSON, and false for a list in columns.
        is_json: bool,
    },
}

/// The options of `csid pipe`, which answers the calls on standard input.
#[derive(Clone, Copy)]
pub struct Piped<'a> {
    /// The file of the configuration, or `None` for the sample configuration.
    pub config: Option<&'a str>,
    /// The file of the tables that have the volumes, or `None` if the volumes are in memory.
    pub tables: Option<TablesFile<'a>>,
}

/// The file of tables, and how it is opened.
#[derive(Clone, Copy)]
pub struct TablesFile<'a> {
    /// The path of the file.
    pub path: &'a str,
    /// True if the file must exist and have tables. If false, a missing file is made, and tables are made in
    /// a file without tables.
    pub is_existing: bool,
    /// True if reads are answered from the file. If false, they are answered from a copy in memory, or from
    /// the file if memory for the copy is refused.
    pub is_low_memory: bool,
}

/// The store that keeps the volumes of a server.
#[derive(Clone, Copy)]
pub enum Volumes<'a> {
    /// The tables of a file (`--tables`).
    Tables(TablesFile<'a>),
    /// The change store that listens at the socket with this path (`--log`).
    ChangeStore(&'a str),
}

/// The options of `csid serve`: its socket, the store of its volumes, its configuration and its limits.
#[derive(Clone, Copy)]
pub struct Serving<'a> {
    /// The path at which the socket is made.
    pub socket: &'a str,
    /// The store that keeps the volumes: the tables of a file, or a change store.
    pub volumes: Volumes<'a>,
    /// The file of the configuration, or `None` for the sample configuration.
    pub config: Option<&'a str>,
    /// The name or number of the group that may connect, or `None` if only the owner may connect.
    pub group: Option<&'a str>,
    /// The number of seconds for which the peer of a connection may send or take nothing, or `None` for no
    /// limit.
    pub idle: Option<u32>,
    /// The number of connections that are accepted before the program ends.
    pub connections: u32,
}

const CONFIG: CommandOption = CommandOption {
    name: "config",
    takes: Takes::Text("FILE"),
    help: "The configuration, a TOML file; without it the sample configuration",
    ..OPTION
};

const TABLES: CommandOption = CommandOption {
    name: "tables",
    takes: Takes::Text("FILE"),
    help: "The volumes, an SQLite database; it is made where there is none",
    ..OPTION
};

const EXISTING: CommandOption = CommandOption {
    name: "existing",
    needs: Some("tables"),
    help: "Refuses a file of volumes that is missing or has no tables, and makes none",
    ..OPTION
};

const LOW_MEMORY: CommandOption = CommandOption {
    name: "low-memory",
    needs: Some("tables"),
    help: "Reads from the file of volumes for each call, and keeps none of them in memory",
    ..OPTION
};

static CHECKS: [CommandOption; 11] = [
    CommandOption {
        name: "check-config",
        takes: Takes::Text("FILE"),
        is_alone: true,
        help: "Says what a configuration has, or why it is refused, and ends",
        ..OPTION
    },
    CommandOption {
        name: "check-tables",
        takes: Takes::Text("FILE"),
        help: "Says what tables have, or why they are refused, and ends; nothing is changed, also of tables that are served",
        ..OPTION
    },
    CommandOption {
        help: "The configuration by which tables are judged; without it the sample configuration",
        ..CONFIG
    },
    CommandOption {
        name: "copy-tables",
        takes: Takes::Text("FILE"),
        needs: Some("to"),
        help: "Copies tables as they were committed at one moment, also of a file that is served, and ends",
        ..OPTION
    },
    CommandOption {
        name: "to",
        takes: Takes::Text("COPY"),
        needs: Some("copy-tables"),
        help: "The new file of the copy, which needs no WAL; an existing one is not replaced",
        ..OPTION
    },
    CommandOption {
        name: "list-tables",
        takes: Takes::Text("FILE"),
        help: "Lists the volumes of tables, and what each pool and node has of them, and ends; nothing is changed, also of tables that are served",
        ..OPTION
    },
    CommandOption {
        name: "id",
        takes: Takes::Text("ID"),
        needs: Some("list-tables"),
        help: "Lists the volume with this id alone, as vol-1",
        ..OPTION
    },
    CommandOption {
        name: "name",
        takes: Takes::Text("NAME"),
        needs: Some("list-tables"),
        help: "Lists the volume with this name alone",
        ..OPTION
    },
    CommandOption {
        name: "pool",
        takes: Takes::Text("NAME"),
        needs: Some("list-tables"),
        help: "Lists the volumes of this pool alone",
        ..OPTION
    },
    CommandOption {
        name: "node",
        takes: Takes::Text("ID"),
        needs: Some("list-tables"),
        help: "Lists the volumes that are published at this node alone",
        ..OPTION
    },
    CommandOption {
        name: "json",
        needs: Some("list-tables"),
        help: "Lists in JSON, with a volume a line",
        ..OPTION
    },
];

static PIPE: [CommandOption; 4] = [CONFIG, TABLES, EXISTING, LOW_MEMORY];

static SERVE: [CommandOption; 9] = [
    CommandOption {
        name: "socket",
        takes: Takes::Text("PATH"),
        is_required: true,
        help: "The Unix socket to listen on, as /run/csid.sock; no file may stand there",
        ..OPTION
    },
    TABLES,
    CommandOption {
        name: "log",
        takes: Takes::Text("PATH"),
        help: "The socket of a program that keeps the volumes, as csid-etcd does, in place of --tables",
        ..OPTION
    },
    EXISTING,
    LOW_MEMORY,
    CONFIG,
    CommandOption {
        name: "group",
        takes: Takes::Text("NAME"),
        help: "The group that may connect too, by its name or number; without it the owner alone",
        ..OPTION
    },
    CommandOption {
        name: "idle",
        takes: Takes::Count("SECONDS", 86_400),
        help: "Closes a connection that sends nothing for so long, 1 to 86400; without it none is",
        ..OPTION
    },
    CommandOption {
        name: "connections",
        takes: Takes::Count("N", 1_000_000),
        standard: Some("1000000"),
        help: "How many connections are served until the server ends, 1 to 1000000",
        ..OPTION
    },
];

/// Parses the arguments of `csid`. Returns `None` if they ask for help or the version, which is then printed.
///
/// # Errors
///
/// If the arguments are not a valid command line, printing fails, or memory is refused.
pub fn read_arguments<'a>(
    rt: &HostRuntime,
    arguments: &'a [String],
) -> Result<Option<ArgMatches<'a>>, ArgumentsFault> {
    let subcommands = [
        Subcommand {
            name: "pipe",
            about: "Answers the calls of standard input on standard output, as no command does; without --tables the volumes are forgotten at the end",
            options: &PIPE,
            shared: &[],
        },
        Subcommand {
            name: "serve",
            about: "Answers the calls of connections to a Unix socket, one connection after the other",
            options: &SERVE,
            shared: &[],
        },
    ];
    let line = CommandLine {
        name: "csid",
        version: "0.1.0",
        about: "A CSI controller plugin: calls and replies are frames, as docs/PROTOCOL.md says",
        options: &CHECKS,
        subcommands: &subcommands,
    };
    command_line::matches(rt, &line, arguments)
}

/// The options that take a number: the name of each, and the option as an error line shows it.
const NUMBERS: [(&str, &str); 2] = [
    ("connections", "--connections <N>"),
    ("idle", "--idle <SECONDS>"),
];

/// Returns the first of `--connections` and `--idle` whose value is not only decimal digits: the option as an
/// error line shows it, and its value. Returns `None` if there is no such value. The check is needed since
/// `clap` accepts a sign.
pub fn odd_number<'a>(matches: &ArgMatches<'a>) -> Option<(&'static str, &'a str)> {
    let (_, arguments) = matches.subcommand()?;
    for (name, shown) in NUMBERS {
        if let Some(number) = arguments.get_str(name) {
            if !is_decimal(number) {
                return Some((shown, number));
            }
        }
    }
    None
}

/// Returns the fault if the command line has two tasks over tables, or a configuration for a task that needs
/// none. Returns `None` for any other command line.
pub fn odd_check<'a>(matches: &ArgMatches<'a>) -> Option<&'static str> {
    let is_check = matches.get_str("check-tables").is_some();
    let is_copy = matches.get_str("copy-tables").is_some();
    let is_list = matches.get_str("list-tables").is_some();
    if is_list && is_check {
        return Some(
            "the argument '--list-tables <FILE>' cannot be used with '--check-tables <FILE>'",
        );
    }
    if is_copy && is_check {
        return Some(
            "the argument '--copy-tables <FILE>' cannot be used with '--check-tables <FILE>'",
        );
    }
    if is_copy && is_list {
        return Some(
            "the argument '--copy-tables <FILE>' cannot be used with '--list-tables <FILE>'",
        );
    }
    if matches.subcommand().is_none()
        && matches.get_str("config").is_some()
        && !is_check
        && !is_copy
    {
        return Some("'--config <FILE>' needs '--check-tables <FILE>' or '--copy-tables <FILE>'");
    }
    None
}

/// Returns the fault if the arguments of a server name no store for the volumes, name two stores, or have an
/// empty path for the socket of a change store. Returns `None` if they name one store, and for other
/// commands.
pub fn odd_store<'a>(matches: &ArgMatches<'a>) -> Option<&'static str> {
    let Some(("serve", arguments)) = matches.subcommand() else {
        return None;
    };
    match (arguments.get_str("tables"), arguments.get_str("log")) {
        (Some(_), Some(_)) => Some(
            "the argument '--log <PATH>' cannot be used with '--tables <FILE>'",
        ),
        (None, None) => Some("one of '--tables <FILE>' and '--log <PATH>' is required"),
        (None, Some("")) => Some("the path of '--log <PATH>' is empty"),
        _ => None,
    }
}

// Returns the file of tables at `path`, with the values of `--existing` and `--low-memory`.
fn tables_file<'a>(arguments: &ArgMatches<'a>, path: &'a str) -> TablesFile<'a> {
    TablesFile {
        path,
        is_existing: arguments.get_flag("existing"),
        is_low_memory: arguments.get_flag("low-memory"),
    }
}

// Returns the store that keeps the volumes of a server. [`odd_store`] has refused arguments that do not name
// exactly one store.
fn place_of_volumes<'a>(arguments: &ArgMatches<'a>) -> Volumes<'a> {
    match arguments.get_str("log") {
        Some(socket) => Volumes::ChangeStore(socket),
        None => Volumes::Tables(tables_file(arguments, arguments.get_str("tables").unwrap_or(""))),
    }
}

// Returns the options of `csid serve`.
fn serve_task<'a>(arguments: &ArgMatches<'a>) -> Serving<'a> {
    Serving {
        socket: arguments.get_str("socket").unwrap_or(""),
        volumes: place_of_volumes(arguments),
        config: arguments.get_str("config"),
        group: arguments.get_str("group"),
        idle: arguments.get_one::<u32>("idle"),
        connections: arguments.get_one::<u32>("connections").unwrap_or(1),
    }
}

// Returns the task of listing the tables of a file.
fn list_task<'a>(arguments: &ArgMatches<'a>, tables: &'a str) -> Task<'a> {
    Task::ListTables {
        tables,
        chosen: Chosen {
            id: arguments.get_str("id"),
            name: arguments.get_str("name"),
            pool: arguments.get_str("pool"),
            node: arguments.get_str("node"),
        },
        is_json: arguments.get_flag("json"),
    }
}

// Returns the task of a command line without a command. Without options, the task is to answer the calls on
// standard input over the sample configuration.
fn plain_task<'a>(arguments: &ArgMatches<'a>) -> Task<'a> {
    if let Some(path) = arguments.get_str("check-config") {
        return Task::CheckConfig(path);
    }
    if let Some(tables) = arguments.get_str("list-tables") {
        return list_task(arguments, tables);
    }
    if let Some(tables) = arguments.get_str("copy-tables") {
        return Task::CopyTables {
            tables,
            to: arguments.get_str("to").unwrap_or(""),
            config: arguments.get_str("config"),
        };
    }
    match arguments.get_str("check-tables") {
        Some(tables) => Task::CheckTables {
            tables,
            config: arguments.get_str("config"),
        },
        None => Task::Pipe(Piped {
            config: None,
            tables: None,
        }),
    }
}

// Returns the options of `csid pipe`.
fn pipe_task<'a>(arguments: &ArgMatches<'a>) -> Piped<'a> {
    let tables = match arguments.get_str("tables") {
        Some(path) => Some(tables_file(arguments, path)),
        None => None,
    };
    Piped {
        config: arguments.get_str("config"),
        tables,
    }
}

/// Returns the task of arguments that [`read_arguments`] has accepted, and in which [`odd_number`],
/// [`odd_check`] and [`odd_store`] find no fault.
pub fn task_of<'a>(matches: &ArgMatches<'a>) -> Task<'a> {
    match matches.subcommand() {
        Some(("serve", arguments)) => Task::Serve(serve_task(arguments)),
        Some((_, arguments)) => Task::Pipe(pipe_task(arguments)),
        None => plain_task(matches),
    }
}
