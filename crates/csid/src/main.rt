//! The server: reads calls from standard input and writes replies to standard output, or serves a socket. It
//! also checks, copies and lists tables.
//!
//! # Not promised
//!
//! The contracts do not say what the sockets, the signals and the command line do. Code or tests show:
//!
//! - `ChangeStoreLeadership` asks the change store if the change store leads (the code in `change_store.rt`,
//!   and `tests/test_csid_*.py`)
//! - what `open_change_store` receives from the change store (the same tests)
//! - how `csid` measures memory, and that it gives up a change store that answers late (the same tests; the
//!   code is in `room.rt` and `timed.rt`)
//! - a connection is served from its first byte, over the tables that the command line names (the code in
//!   `socket.rt`, which calls `TablesRun::serve_file`)
#![tactic(auto)]

mod change_store;
mod checks;
mod existing;
mod first;
mod making;
mod places;
mod room;
mod run;
mod serving;
mod socket;
mod tables;
mod timed;

use command_line::occupy_closed;
use csid_console::Console;
use std::process::ExitCode;

fn main(rt: HostRuntime) -> ExitCode {
    let _standard = occupy_closed(&rt);
    let console = Console::new(&rt);
    match run::run(&console) {
        Ok(()) => ExitCode::SUCCESS,
        Err(failure) => {
            console.say(&failure);
            ExitCode::from(failure.status())
        }
    }
}
