//! Runs `csid --check-tables`, `csid --list-tables` and `csid --copy-tables`. The path and the header of the
//! file are checked before the tables are read, so that a file without tables is refused with the same words
//! as by `csid serve --existing`.

ghost use Rattle.std.specs.Prelude.{IfErr};
ghost use Rattle.csid_settings.specs.Statuses.{IsOrNoMemory};

use crate::tables::{check_existing, check_path};
use csid_console::Console;
use csid_settings::{Chosen, Failure, configuration};

// Checks that a file has tables, as far as its path and its first bytes show. A file that cannot be read
// passes, since the reading of its tables reports the reason.
fn check_readable(rt: &HostRuntime, path: &str) -> Result<(), Failure>
    ensures { IfErr result (λ failure. IsOrNoMemory 4 failure) }
{
    check_path(rt, path)?;
    check_existing(rt, path)
}

/// Checks the tables in a file, and writes their counts on standard output. The check uses the configuration
/// in the file `config`, or the sample configuration if `config` is `None`.
///
/// # Errors
///
/// If the configuration or the tables cannot be read or are refused, the counts cannot be written, or memory
/// is refused.
pub(crate) fn check_tables(
    console: &Console<'_>,
    path: &str,
    config: Option<&str>,
) -> Result<(), Failure> {
    let config = configuration(console, config, true)?;
    check_readable(console.rt, path)?;
    csid_listings::check_tables(console, path, &config)
}

/// Lists the volumes in a file of tables that pass the filter `chosen`. Writes the list to standard output,
/// in JSON if `is_json` is true, otherwise in columns.
///
/// # Errors
///
/// If the tables cannot be read, the list cannot be written, or memory is refused.
pub(crate) fn list_tables(
    console: &Console<'_>,
    path: &str,
    chosen: &Chosen<'_>,
    is_json: bool,
) -> Result<(), Failure> {
    check_readable(console.rt, path)?;
    csid_listings::list_tables(console, path, chosen, is_json)
}

/// Copies the tables in a file into a new file at `to`, and writes their counts on standard output. The copy
/// is checked under the configuration in the file `config`, or under the sample configuration if `config` is
/// `None`.
///
/// # Errors
///
/// If the configuration or the tables cannot be read or are refused, a file exists at `to` or at the path
/// `to` with `.new` at its end, the copy or the counts cannot be written, or memory is refused.
pub(crate) fn copy_tables(
    console: &Console<'_>,
    path: &str,
    to: &str,
    config: Option<&str>,
) -> Result<(), Failure> {
    let config = configuration(console, config, true)?;
    check_readable(console.rt, path)?;
    csid_listings::copy_tables(console, path, to, &config)
}
