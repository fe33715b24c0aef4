//! Runs the vectors of a text line by line.

ghost use Rattle.std.specs.Prelude.{◌≡◌, ◌≢◌, ◌⊎◌, [], List, ℕ, IfErr, IfOk, IsErrOf, IsTrue, IsUtf8, Ok, OnOk, false, true};
ghost use Rattle.std.specs.IoError.{error_kind};
ghost use Rattle.std.specs.declared.io.ErrorKind.TheVariants.{OutOfMemory};
ghost use Rattle.std.specs.Io.KnownBytes.{Appends, IsAtEnd};
ghost use Rattle.csi_vectors.specs.Running.{EndsAs, IsCut, IsDone, IsNoText, IsNoVector, IsSkipped, IsTextOf, Runs, Takes, end_of, halt_of, reported};
ghost use Rattle.csi_vectors.specs.declared.running.RunHalt.TheVariants.{BadLine, NoMemory, WriteFailed};
ghost use Rattle.csi_vectors.specs.declared.running.VectorsEnd.TheVariants as ends;

use crate::judging::passes;
use crate::vector::{LineFault, Vector};
use csi_config::Config;
use frames_core::send;
use std::alloc::{AllocError, Global};
use std::io::{self, BufRead, BufReader, ErrorKind, Read, Write};
use std::str;

/// The way in which a run of vectors ended.
#[derive(Clone, Copy, Debug, PartialEq, Eq)]
pub enum VectorsEnd {
    /// All lines were run. The value is true if a vector failed.
    Done(bool),
    /// The line with this number, counted from 1, is not a vector. All lines before it were run.
    BadLine(u64),
    /// The limit of 2^64 - 1 lines was reached.
    LinesSpent,
    /// A read of the vectors failed for a reason other than lack of memory.
    ReadFailed,
    /// A write or a flush of a result failed, or a write was interrupted or took no byte. The results of all
    /// earlier lines were written. Of this result, a part was written, which may be empty or complete.
    WriteFailed,
    /// Memory for the configuration, the buffer of the input, a line, a vector or a server was refused.
    NoMemory,
}

// The reason why no more lines are run.
#[derive(Clone, Copy)]
pub(crate) enum RunHalt {
    BadLine,
    WriteFailed,
    NoMemory,
}

impl From<AllocError> for RunHalt {
    ghost from_gives = { λ _ halt. halt ≡ NoMemory };

    fn from(_error: AllocError) -> RunHalt {
        RunHalt::NoMemory
    }
}

impl From<LineFault> for RunHalt {
    ghost from_gives = { λ fault halt. halt ≡ halt_of fault };

    fn from(fault: LineFault) -> RunHalt {
        match fault {
            LineFault::NotVector => RunHalt::BadLine,
            LineFault::NoMemory => RunHalt::NoMemory,
        }
    }
}

// Returns true if a line, without its line end, is skipped: an empty line or a comment.
fn is_skipped(text: &[u8]) -> bool
    ensures skipped { IsTrue result → IsSkipped text.now }
    ensures run { IsSkipped text.now → IsTrue result }
{
    text.is_empty() || text.starts_with(b"#")
}

// Returns the bytes as a text. Fails with `BadLine` if they are not UTF-8.
fn text_of(bytes: &[u8]) -> Result<&str, RunHalt>
    ensures ok { IfOk result (λ text. (text.now ≡ bytes.now) × IsUtf8 bytes.now) }
    ensures bad { IfErr result (λ halt. (halt ≡ BadLine) × ¬ IsUtf8 bytes.now) }
{
    str::from_utf8(bytes).map_err(|_| RunHalt::BadLine)
}

// Makes the line with the result of a vector. The line is made before it is written, so that no partial line
// is written if memory is refused.
fn line_of(alloc: Global, name: &str, failed: bool) -> Result<Vec<u8>, AllocError>
    ensures { IfOk result (λ line. line.items ≡ reported failed name.now) }
{
    let mut line = Vec::new(alloc);
    line.extend_from_slice(if failed { b"FAIL " } else { b"ok " })?;
    line.extend_from_slice(name.as_bytes())?;
    line.push(b'\n')?;
    Ok(line)
}

// Runs the vector of a line, given without its line end, and writes the result. Returns true if the vector
// failed, and false if it passed or the line is skipped.
fn run_text<W: Write>(
    alloc: Global,
    config: &Config,
    text: &[u8],
    writer: &mut W,
) -> Result<bool, RunHalt>
    ensures ok { IfOk result (λ failed. (lines : List ℕ) × IsDone config.now text.now lines failed
        × Appends (W.contents writer.old) (W.contents writer.new) lines) }
    ensures kept { IfErr result (λ halt. halt ≢ WriteFailed → W.contents writer.new ≡ W.contents writer.old) }
    ensures bad { IsErrOf result BadLine → IsNoText text.now }
    ensures cut { IsErrOf result WriteFailed
        → IsCut config.now text.now (W.contents writer.old) (W.contents writer.new) }
{
    if is_skipped(text) {
        return Ok(false);
    }
    let vector = Vector::parse(alloc, text_of(text)?)?;
    let failed = !passes(alloc, config, &vector)?;
    let line = line_of(alloc, vector.name, failed)?;
    match send(writer, line.as_slice()) {
        Ok(()) => Ok(failed),
        Err(_) => Err(RunHalt::WriteFailed),
    }
}

// Returns a line without its line end. The last line of a text may have no line end, and is then returned
// unchanged.
fn without_end(line: &[u8]) -> &[u8]
    ensures { IsTextOf line.now result.now }
{
    match line.strip_suffix(b"\n") {
        Some(text) => text,
        None => line,
    }
}

// Runs the vector of a line, given with its line end, and writes the result. Returns true if the vector
// failed, and false if it passed or the line is skipped.
fn run_line<W: Write>(
    alloc: Global,
    config: &Config,
    line: &[u8],
    writer: &mut W,
) -> Result<bool, RunHalt>
    ensures ok { IfOk result (λ failed. (text lines : List ℕ) × IsTextOf line.now text
        × IsDone config.now text lines failed
        × Appends (W.contents writer.old) (W.contents writer.new) lines) }
    ensures kept { IfErr result (λ halt. halt ≢ WriteFailed → W.contents writer.new ≡ W.contents writer.old) }
    ensures bad { IsErrOf result BadLine → IsNoVector line.now }
    ensures cut { IsErrOf result WriteFailed → (text : List ℕ) × IsTextOf line.now text
        × IsCut config.now text (W.contents writer.old) (W.contents writer.new) }
{
    run_text(alloc, config, without_end(line), writer)
}

// Returns the end of the run after a read has failed with this error.
fn unread(error: &io::Error) -> VectorsEnd
    ensures memory { error_kind error.now ≡ OutOfMemory → result ≡ ends.NoMemory }
    ensures failed { error_kind error.now ≢ OutOfMemory → result ≡ ends.ReadFailed }
{
    match error.kind() {
        ErrorKind::OutOfMemory => VectorsEnd::NoMemory,
        _ => VectorsEnd::ReadFailed,
    }
}

// Reads the next line with its line end into `line`, which is cleared first. Returns false at the end of the
// input.
fn next_line<B: BufRead>(reader: &mut B, line: &mut Vec<u8>) -> Result<bool, VectorsEnd>
    ensures line { OnOk result (Takes (B.remaining reader.old) (B.remaining reader.new) line.new.items) }
    ensures not_empty { result ≡ Ok true → line.new.items ≢ [] }
    ensures end { result ≡ Ok false → IsAtEnd (B.remaining reader.old) }
    ensures err { IfErr result (λ end. (end ≡ ends.NoMemory) ⊎ (end ≡ ends.ReadFailed)) }
{
    line.clear();
    match reader.read_until(b'\n', line) {
        Ok(count) => Ok(count > 0),
        Err(error) => Err(unread(&error)),
    }
}

// Returns the end of a run that stops at the line with this number.
fn ended(halt: RunHalt, number: u64) -> VectorsEnd
    ensures { result ≡ end_of halt number }
{
    match halt {
        RunHalt::BadLine => VectorsEnd::BadLine(number),
        RunHalt::WriteFailed => VectorsEnd::WriteFailed,
        RunHalt::NoMemory => VectorsEnd::NoMemory,
    }
}

fn run_lines<B: BufRead, W: Write>(
    alloc: Global,
    config: &Config,
    reader: &mut B,
    writer: &mut W,
) -> VectorsEnd
    ensures { EndsAs config.now (B.remaining reader.old) (W.contents writer.old)
        (W.contents writer.new) result }
{
    let mut line = Vec::new(alloc);
    let mut failed = false;
    for count in 0..u64::MAX {
        match next_line(reader, &mut line) {
            Ok(true) => {}
            Ok(false) => return VectorsEnd::Done(failed),
            Err(end) => return end,
        }
        match run_line(alloc, config, &line, writer) {
            Ok(is_failed) => failed |= is_failed,
            Err(halt) => return ended(halt, count + 1),
        }
    }
    VectorsEnd::LinesSpent
}

/// Runs the vectors of a text, one vector on each line, under the sample configuration. For each vector it
/// writes the line `ok NAME` or `FAIL NAME` and flushes it at once. Lines have the form that
/// [`Vector::parse`] takes. Empty lines, and lines that begin with `#`, are skipped. A line that is not a
/// vector ends the run. At most 2^64 - 1 lines are run.
pub fn run_vectors<R: Read, W: Write>(alloc: Global, reader: &mut R, writer: &mut W) -> VectorsEnd
    ensures { Runs (R.remaining reader.old) (W.contents writer.old) (W.contents writer.new) result }
{
    let Ok(config) = Config::sample(alloc) else {
        return VectorsEnd::NoMemory;
    };
    let Ok(mut lines) = BufReader::new(alloc, reader) else {
        return VectorsEnd::NoMemory;
    };
    run_lines(alloc, &config, &mut lines, writer)
}
