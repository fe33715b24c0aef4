//! Reads the configuration of the program, and reports its faults.

ghost use Rattle.std.specs.Prelude.{IfErr};
ghost use Rattle.csid_settings.specs.Statuses.{IsOrNoMemory};

use crate::failure::Failure;
use csi_config::Config;
use csi_config_file::{ConfigError, config_faults, read_config, unknown_keys};
use csid_console::Console;
use std::alloc::Global;
use std::fs;
use std::io::ErrorKind;

// Reads the bytes of the configuration file at `path`. The failure names the path.
fn read_file(rt: &HostRuntime, path: &str) -> Result<Vec<u8>, Failure>
    ensures { IfErr result (λ failure. IsOrNoMemory 3 failure) }
{
    match fs::read(rt, path) {
        Ok(bytes) => Ok(bytes),
        Err(error) if error.kind() == ErrorKind::OutOfMemory => Err(Failure::NoMemory),
        Err(error) => Err(Failure::configuration(rt.alloc(), path, &error)),
    }
}

// Parses the bytes of the file at `path` as a configuration. The failure names the path.
fn config_of(alloc: Global, path: &str, bytes: &[u8]) -> Result<Config, Failure>
    ensures { IfErr result (λ failure. IsOrNoMemory 3 failure) }
{
    match read_config(alloc, bytes) {
        Ok(config) => Ok(config),
        Err(ConfigError::NoMemory) => Err(Failure::NoMemory),
        Err(error) => Err(Failure::configuration(alloc, path, &error)),
    }
}

// Reports each unknown key of a configuration on a line of its own, since the key may be misspelt.
fn report_unknown(console: &Console<'_>, path: &str, bytes: &[u8]) {
    match unknown_keys(console.rt.alloc(), bytes) {
        Ok(keys) => {
            for key in &keys {
                console.say_of(path, key);
            }
        }
        Err(_) => console.say(&"out of memory"),
    }
}

// Reports the unknown keys of a refused configuration, and all of its faults except the last. Returns the
// last fault, which the caller reports. If no fault is found, reports nothing and returns `refused`.
fn report_faults(console: &Console<'_>, path: &str, bytes: &[u8], refused: Failure) -> Failure
    requires { IsOrNoMemory 3 refused }
    ensures { IsOrNoMemory 3 result }
{
    let alloc = console.rt.alloc();
    let Ok(faults) = config_faults(alloc, bytes) else {
        return Failure::NoMemory;
    };
    let Some((last, others)) = faults.as_slice().split_last() else {
        return refused;
    };
    report_unknown(console, path, bytes);
    for fault in others {
        console.say_of(path, fault);
    }
    Failure::configuration(alloc, path, last)
}

/// Reads the configuration in a file, and reports its unknown keys. If it has faults, reports all of them
/// except the last, which is the error.
///
/// # Errors
///
/// Returns the last fault of the configuration, or the failure if the file cannot be read or memory is
/// refused.
pub fn checked_configuration(console: &Console<'_>, path: &str) -> Result<Config, Failure>
    ensures { IfErr result (λ failure. IsOrNoMemory 3 failure) }
{
    let rt = console.rt;
    let bytes = read_file(rt, path)?;
    match config_of(rt.alloc(), path, bytes.as_slice()) {
        Ok(config) => {
            report_unknown(console, path, bytes.as_slice());
            Ok(config)
        }
        Err(refused) => Err(report_faults(console, path, bytes.as_slice(), refused)),
    }
}

/// Reads the configuration in a file, or returns the sample configuration if no file is given. Unknown keys
/// are ignored. They are reported if `names_unknown` is true.
///
/// # Errors
///
/// If the file cannot be read or is not a configuration, or memory is refused.
pub fn configuration(
    console: &Console<'_>,
    path: Option<&str>,
    names_unknown: bool,
) -> Result<Config, Failure>
    ensures { IfErr result (λ failure. IsOrNoMemory 3 failure) }
{
    let rt = console.rt;
    let Some(path) = path else {
        return Ok(Config::sample(rt.alloc())?);
    };
    let bytes = read_file(rt, path)?;
    let config = config_of(rt.alloc(), path, bytes.as_slice())?;
    if names_unknown {
        report_unknown(console, path, bytes.as_slice());
    }
    Ok(config)
}
