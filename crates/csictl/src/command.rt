//! The commands and options of `csictl`, and how its arguments are parsed.

use clap::ArgMatches;
use command_line::{ArgumentsFault, CommandLine, CommandOption, OPTION, Subcommand, Takes};
use std::alloc::{AllocError, Global};

// The options of a call: its method, the fields of its message, and the message in hexadecimal digits.
static CALLED: [CommandOption; 15] = [
    CommandOption {
        is_required: true,
        ..METHOD
    },
    CommandOption {
        name: "name",
        takes: Takes::Text("TEXT"),
        help: "The name of a volume, as pvc-7",
        ..OPTION
    },
    CommandOption {
        name: "required",
        takes: Takes::Bytes("BYTES"),
        help: "The least size in bytes, as 1048576",
        ..OPTION
    },
    CommandOption {
        name: "limit",
        takes: Takes::Bytes("BYTES"),
        help: "The greatest size in bytes, as 4194304",
        ..OPTION
    },
    CommandOption {
        name: "mode",
        takes: Takes::Number("N"),
        help: "One capability with this access mode, as 1 (SINGLE_NODE_WRITER)",
        ..OPTION
    },
    CommandOption {
        name: "fs",
        takes: Takes::Text("TEXT"),
        needs: Some("mode"),
        help: "The capability is a mount of this file system, as ext4, and not a block device",
        ..OPTION
    },
    CommandOption {
        name: "parameters",
        takes: Takes::Text("KEY=VALUE,.."),
        help: "The parameters, as tier=fast,copies=2",
        ..OPTION
    },
    CommandOption {
        name: "mutable",
        takes: Takes::Text("KEY=VALUE,.."),
        help: "The parameters that can be changed, as iops=500",
        ..OPTION
    },
    CommandOption {
        name: "topology",
        takes: Takes::Text("KEY=VALUE,.."),
        help: "The segments of one topology, as zone=a",
        ..OPTION
    },
    CommandOption {
        name: "volume",
        takes: Takes::Text("ID"),
        help: "The id of a volume, as vol-1",
        ..OPTION
    },
    CommandOption {
        name: "node",
        takes: Takes::Text("ID"),
        help: "The id of a node, as n1",
        ..OPTION
    },
    CommandOption {
        name: "readonly",
        help: "The volume is attached for reading only",
        ..OPTION
    },
    CommandOption {
        name: "max",
        takes: Takes::Number("N"),
        help: "The most entries of a page, as 50; 0 for as many as a page holds",
        ..OPTION
    },
    CommandOption {
        name: "token",
        takes: Takes::Text("TEXT"),
        help: "Where the page begins: the token of the page before",
        ..OPTION
    },
    CommandOption {
        name: "message",
        takes: Takes::Text("HEX"),
        help: "The message as it is, in hexadecimal digits, and none of the options above",
        ..OPTION
    },
];

/// Returns the options that are fields of a message. They come between `--method` and `--message`.
pub(crate) fn fields() -> &'static [CommandOption] {
    &CALLED[1..CALLED.len() - 1]
}

const METHOD: CommandOption = CommandOption {
    name: "method",
    takes: Takes::Text("METHOD"),
    help: "The method, by its name alone, as CreateVolume",
    ..OPTION
};

/// The name of the option for the greatest number of tries of a call.
pub(crate) const TRIES: &str = "tries";

/// The greatest number of tries that the option `--tries` takes.
pub(crate) const MOST_TRIES: u32 = 10;

/// The name of the option for the time limit of one try, in seconds.
pub(crate) const TIMEOUT: &str = "timeout";

static SHOW: [CommandOption; 1] = [METHOD];

// The option for the path of the server's socket. The module `socket` finds the path if the option is not
// given.
const SOCKET: CommandOption = CommandOption {
    name: "socket",
    takes: Takes::Text("PATH"),
    help: "The socket of the server: of csid, or the control socket of the front. Without it CSID_SOCKET of the environment; without that the first that exists of /run/csid-front/control.sock and /run/csid/csid.sock",
    ..OPTION
};

const TRIED: CommandOption = CommandOption {
    name: TRIES,
    takes: Takes::Count("N", MOST_TRIES),
    help: "How often the call is sent, on a new connection each time, until it is answered, as 5; 1 without it, and at most 10",
    ..OPTION
};

const WAITED: CommandOption = CommandOption {
    name: TIMEOUT,
    takes: Takes::Count("SECONDS", 86_400),
    help: "How long each try may take up to its reply, as 10; without it, as long as it takes",
    ..OPTION
};

static REACHED: [CommandOption; 3] = [SOCKET, TRIED, WAITED];

static CALL: [CommandOption; 5] = [
    SOCKET,
    TRIED,
    WAITED,
    CommandOption {
        name: "json",
        help: "Shows the reply as one line of JSON, by the mapping of proto3 with all fields",
        ..OPTION
    },
    CommandOption {
        name: "all",
        help: "Asks for all pages of ListVolumes, one after the other, over one connection",
        ..OPTION
    },
];

static VECTORS: [CommandOption; 1] = [CommandOption {
    name: "file",
    takes: Takes::Place("FILE"),
    is_required: true,
    help: "Lines of a name, the input and the output of a server, in hexadecimal digits",
    ..OPTION
}];

const ID: CommandOption = CommandOption {
    name: "volume",
    takes: Takes::Place("ID"),
    is_required: true,
    help: "The id of the volume, as vol-1",
    ..OPTION
};

const NODE: CommandOption = CommandOption {
    name: "node",
    takes: Takes::Place("NODE"),
    help: "The id of the node, as n1",
    ..OPTION
};

const MODE: CommandOption = CommandOption {
    name: "mode",
    takes: Takes::Text("MODE"),
    help: "The access mode: its CSI name, as multi-node-reader-only, its name in Kubernetes, as ReadWriteOnce or RWO, or its number; single-node-writer without it",
    ..OPTION
};

const FS: CommandOption = CommandOption {
    name: "fs",
    takes: Takes::Text("TEXT"),
    help: "The volume is mounted with this file system, as ext4; without it, it is a block device",
    ..OPTION
};

const JSON: CommandOption = CommandOption {
    name: "json",
    help: "Shows the reply as one line of JSON",
    ..OPTION
};

static VOLUMES: [CommandOption; 4] = [
    CommandOption {
        name: "id",
        takes: Takes::Text("ID"),
        help: "The volume alone with this id, as vol-1",
        ..OPTION
    },
    CommandOption {
        name: "node",
        takes: Takes::Text("ID"),
        help: "The volumes alone that are published to this node, as n1",
        ..OPTION
    },
    CommandOption {
        name: "pool",
        takes: Takes::Text("NAME"),
        help: "The volumes alone that are in this pool, as p1",
        ..OPTION
    },
    CommandOption {
        name: "json",
        help: "Shows the volumes as one line of JSON, as call --json --all does",
        ..OPTION
    },
];

static GROUPS: [CommandOption; 1] = [CommandOption {
    help: "Shows them as one line of JSON",
    ..JSON
}];

static STATUS: [CommandOption; 1] = [CommandOption {
    help: "Shows it as one line of JSON",
    ..JSON
}];

static VOLUME: [CommandOption; 2] = [
    ID,
    CommandOption {
        help: "Shows the volume as one line of JSON, as an entry of call --json --all",
        ..JSON
    },
];

static DELETE: [CommandOption; 2] = [ID, JSON];

static CREATE: [CommandOption; 9] = [
    CommandOption {
        name: "name",
        takes: Takes::Place("NAME"),
        is_required: true,
        help: "The name of the volume, as pvc-7",
        ..OPTION
    },
    CommandOption {
        name: "size",
        takes: Takes::Text("SIZE"),
        is_required: true,
        help: "The least size: a number and at most one unit of B, Ki, Mi, Gi, Ti, Pi, Ei (1024) and k, K, M, G, T, P, E (1000), as 1Gi or 1.5 GiB",
        ..OPTION
    },
    CommandOption {
        name: "limit",
        takes: Takes::Text("SIZE"),
        help: "The greatest size, as 2Gi",
        ..OPTION
    },
    MODE,
    FS,
    CommandOption {
        name: "parameters",
        takes: Takes::Text("KEY=VALUE,.."),
        help: "The parameters, as tier=fast,copies=2",
        ..OPTION
    },
    CommandOption {
        name: "mutable",
        takes: Takes::Text("KEY=VALUE,.."),
        help: "The parameters that can be changed, as iops=500",
        ..OPTION
    },
    CommandOption {
        name: "pool-topology",
        takes: Takes::Text("KEY=VALUE,.."),
        help: "The segments of the topology that the pool must have, as zone=a",
        ..OPTION
    },
    JSON,
];

static PUBLISH: [CommandOption; 6] = [
    ID,
    CommandOption {
        is_required: true,
        ..NODE
    },
    MODE,
    FS,
    CommandOption {
        name: "readonly",
        help: "The volume is attached for reading only",
        ..OPTION
    },
    JSON,
];

static UNPUBLISH: [CommandOption; 3] = [
    ID,
    CommandOption {
        help: "The id of the node, as n1; without it, all nodes",
        ..NODE
    },
    JSON,
];

// Returns the commands that work on frames.
fn frame_commands() -> [Subcommand; 4] {
    [
        Subcommand {
            name: "show",
            about: "Shows the replies of standard input, a line each, as no command does",
            options: &SHOW,
            shared: &[],
        },
        Subcommand {
            name: "frame",
            about: "Writes one call to standard output",
            options: &CALLED,
            shared: &[],
        },
        Subcommand {
            name: "call",
            about: "Makes one call of a server on a socket, and shows its reply",
            options: &CALL,
            shared: &CALLED,
        },
        Subcommand {
            name: "vectors",
            about: "Runs the test vectors of a file",
            options: &VECTORS,
            shared: &[],
        },
    ]
}

// Returns the commands that show volumes.
fn listing_commands() -> [Subcommand; 5] {
    [
        Subcommand {
            name: "status",
            about: "Shows the server's name and version, whether it is ready, how many volumes it has, and what its pools and nodes have room for",
            options: &STATUS,
            shared: &REACHED,
        },
        Subcommand {
            name: "volumes",
            about: "Lists the volumes: size, topology, nodes and pool",
            options: &VOLUMES,
            shared: &REACHED,
        },
        Subcommand {
            name: "nodes",
            about: "Lists the nodes and how many volumes are published to each",
            options: &GROUPS,
            shared: &REACHED,
        },
        Subcommand {
            name: "pools",
            about: "Lists the pools and how many bytes the volumes of each have",
            options: &GROUPS,
            shared: &REACHED,
        },
        Subcommand {
            name: "volume",
            about: "Shows one volume",
            options: &VOLUME,
            shared: &REACHED,
        },
    ]
}

// Returns the commands that change volumes.
fn change_commands() -> [Subcommand; 4] {
    [
        Subcommand {
            name: "create",
            about: "Creates a volume",
            options: &CREATE,
            shared: &REACHED,
        },
        Subcommand {
            name: "publish",
            about: "Publishes a volume to a node",
            options: &PUBLISH,
            shared: &REACHED,
        },
        Subcommand {
            name: "unpublish",
            about: "Unpublishes a volume from a node, or from all",
            options: &UNPUBLISH,
            shared: &REACHED,
        },
        Subcommand {
            name: "delete",
            about: "Deletes a volume",
            options: &DELETE,
            shared: &REACHED,
        },
    ]
}

fn commands(alloc: Global) -> Result<Vec<Subcommand>, AllocError> {
    let mut commands = Vec::new(alloc);
    commands.extend_from_slice(&frame_commands())?;
    commands.extend_from_slice(&listing_commands())?;
    commands.extend_from_slice(&change_commands())?;
    Ok(commands)
}

/// Parses the arguments of `csictl`. Returns `None` if they ask for help or the version, which is then
/// printed.
///
/// # Errors
///
/// If the arguments are not a valid command line, printing fails, or memory is refused.
pub(crate) fn read_arguments<'a>(
    rt: &HostRuntime,
    arguments: &'a [String],
) -> Result<Option<ArgMatches<'a>>, ArgumentsFault> {
    let Ok(subcommands) = commands(rt.alloc()) else {
        return Err(ArgumentsFault::NoMemory);
    };
    let line = CommandLine {
        name: "csictl",
        version: "0.1.0",
        about: "The client of csid: calls and replies are frames, as docs/PROTOCOL.md says",
        options: &[],
        subcommands: subcommands.as_slice(),
    };
    command_line::matches(rt, &line, arguments)
}
