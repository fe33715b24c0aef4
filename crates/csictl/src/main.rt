//! The client of `csid`: it makes calls, sends them, and shows replies.
#![tactic(auto)]

mod call;
mod changes;
mod command;
mod configuration;
mod connection;
mod failure;
mod fields;
mod frame;
mod groups;
mod http2;
mod json;
mod line;
mod listings;
mod lookup;
mod message;
mod modes;
mod output;
mod pages;
mod patience;
mod reply;
mod run;
mod show;
mod sizes;
mod socket;
mod status;
mod vectors;
mod words;

use crate::failure::Failure;
use command_line::{occupy_closed, say};
use std::process::ExitCode;

fn main(rt: HostRuntime) -> ExitCode {
    let _standard = occupy_closed(&rt);
    match run::run(&rt) {
        Ok(ended) => ExitCode::from(ended.status()),
        Err(Failure::ReaderGone) => ExitCode::SUCCESS,
        Err(failure) => {
            say(&rt, "csictl", &failure);
            ExitCode::from(failure.status())
        }
    }
}
