//! Finds the number of a group of the system.

ghost use Rattle.std.specs.Prelude.{◌≡◌, IfErr};
ghost use Rattle.csid_settings.specs.Statuses.{IsOrNoMemory};

use crate::failure::Failure;
use command_line::is_decimal;
use std::fs;
use std::io::ErrorKind;

// The file with the names and numbers of groups.
const GROUPS: &str = "/etc/group";

const NO_SUCH: &str = "there is no such group in /etc/group";

// A number that chown(2) does not take as a group: it leaves the group unchanged.
const NO_GROUP: u32 = u32::MAX;

// Returns the number in a line `NAME:PASSWORD:NUMBER:MEMBERS`, or `None` if the line has another name or no
// number.
fn number_in(line: &str, name: &str) -> Option<u32> {
    let mut parts = line.split(':');
    if parts.next()? != name {
        return None;
    }
    let _password = parts.next()?;
    parts.next()?.parse().ok()
}

// Returns the number of the group with this name in the lines of the file, or `None` if no line has the name
// and a number.
fn number_among(lines: &str, name: &str) -> Option<u32> {
    for line in lines.lines() {
        if let Some(number) = number_in(line, name) {
            return Some(number);
        }
    }
    None
}

// Parses a text as the decimal number of a group. Returns `None` for any other text.
fn number_of(text: &str) -> Option<u32> {
    if is_decimal(text) {
        text.parse().ok()
    } else {
        None
    }
}

/// Returns the number of the group with this name. If no group has the name, or `/etc/group` cannot be read,
/// parses the name as a decimal number.
///
/// # Errors
///
/// If the name is neither the name of a group nor a decimal number, if the number is not below 2^32 - 1, or
/// if memory is refused.
pub fn group_number(rt: &HostRuntime, name: &str) -> Result<u32, Failure>
    ensures { IfErr result (λ failure. IsOrNoMemory 7 failure) }
{
    let lines = match fs::read_to_string(rt, GROUPS) {
        Ok(lines) => lines,
        Err(error) if error.kind() == ErrorKind::OutOfMemory => return Err(Failure::NoMemory),
        Err(_) => String::new(rt.alloc()),
    };
    match number_among(lines.as_str(), name).or(number_of(name)) {
        Some(number) if number != NO_GROUP => Ok(number),
        _ => Err(Failure::of_socket(rt.alloc(), name, &NO_SUCH)),
    }
}
