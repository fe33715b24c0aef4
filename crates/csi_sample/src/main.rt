//! The sample server: reads calls from standard input and writes replies to standard output, under the sample
//! configuration, with the volumes in memory.
#![tactic(auto)]

use csi_config::Config;
use csi_memory::MemKeeper;
use csi_server::{RunEnd, serve};
use std::alloc::AllocError;
use std::process::ExitCode;

/// The number that the first volume gets.
const FIRST_NUMBER: u64 = 1;

// Serves the calls on standard input, and returns how the run ended.
fn run(rt: &HostRuntime) -> Result<RunEnd, AllocError> {
    let config = Config::sample(rt.alloc())?;
    let mut keeper = MemKeeper::new(rt.alloc(), FIRST_NUMBER)?;
    Ok(serve(
        rt.alloc(),
        &config,
        &mut keeper,
        &mut rt.stdin(),
        &mut rt.stdout(),
    ))
}

fn main(rt: HostRuntime) -> ExitCode {
    match run(&rt) {
        Ok(RunEnd::Done) => ExitCode::SUCCESS,
        _ => ExitCode::FAILURE,
    }
}
