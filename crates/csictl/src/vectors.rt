//! Runs `csictl vectors`: runs the test vectors in a file.

use crate::failure::{Ended, Failure};
use crate::output::Output;
use clap::ArgMatches;
use csi_vectors::{VectorsEnd, run_vectors};
use std::alloc::Global;
use std::fs::File;

// Returns the end of the program after a run over a file of vectors.
fn outcome(
    alloc: Global,
    path: &str,
    end: VectorsEnd,
    output: &Output<'_>,
) -> Result<Ended, Failure> {
    match end {
        VectorsEnd::Done(is_failed) => Ok(Ended::with(is_failed)),
        VectorsEnd::BadLine(line) => Err(Failure::NotVector {
            path: String::from_str(alloc, path)?,
            line,
        }),
        VectorsEnd::LinesSpent => Err(Failure::named(alloc, path, &"it has too many lines")),
        VectorsEnd::ReadFailed => Err(Failure::named(alloc, path, &"a read failed")),
        VectorsEnd::WriteFailed => Err(output.failure()),
        VectorsEnd::NoMemory => Err(Failure::NoMemory),
    }
}

/// Runs the test vectors in a file, and writes a line for each.
///
/// # Errors
///
/// If the file cannot be read or has too many lines, a line is not a vector, writing fails, or memory is
/// refused.
pub(crate) fn run(rt: &HostRuntime, arguments: &ArgMatches<'_>) -> Result<Ended, Failure> {
    let path = arguments.get_str("file").unwrap_or("");
    match File::open(rt, path) {
        Ok(mut file) => {
            let mut output = Output::new(rt);
            let end = run_vectors(rt.alloc(), &mut file, &mut output);
            outcome(rt.alloc(), path, end, &output)
        }
        Err(error) => Err(Failure::system(rt.alloc(), path, &error)),
    }
}
