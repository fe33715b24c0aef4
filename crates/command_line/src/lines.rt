//! Writes lines on standard error.

ghost use Rattle.std.specs.Prelude.{◌≡◌, ◌&&◌, ◌++◌, IfOk, IfSome, List, OnOk, encode_utf8_all, nat_lt, length, ℕ};
ghost use Rattle.std.specs.Char.{is_ascii_digit};
ghost use Rattle.std.specs.List.{list_all};
ghost use Rattle.std.specs.String.{string_bytes};
ghost use Rattle.command_line.specs.Lines.{line_of, shown};

use std::alloc::{AllocError, Global};
use std::fmt::Display;
use std::io::{self, Write};

// Appends a character. A line end or another control character is escaped, as `\n` or `\u{1b}`.
fn push_shown(line: &mut String, character: char) -> Result<(), AllocError>
    ensures ok { OnOk result (string_bytes line.new
        ≡ string_bytes line.old ++ encode_utf8_all (shown character)) }
{
    if !character.is_control() {
        return line.push(character);
    }
    for escaped in character.escape_default() {
        line.push(escaped)?;
    }
    Ok(())
}

// Makes a line for standard error: the program's name, a colon, the text and the line end. Paths, names and
// ids in the text may come from files or from the command line. So each line end and each other control
// character in the text is escaped, as `\n` or `\u{1b}`.
fn line(alloc: Global, program: &str, text: &str) -> Result<String, AllocError>
    ensures ok { IfOk result (λ said. string_bytes said ≡ line_of program.now text.now) }
{
    let mut line = String::new(alloc);
    line.push_str(program)?;
    line.push_str(": ")?;
    for character in text.chars() {
        push_shown(&mut line, character)?;
    }
    line.push('\n')?;
    Ok(line)
}

/// Makes a line for standard error: the program's name, a colon, the text of `what` and the line end. Each
/// line end and each other control character in the text is escaped, as `\n` or `\u{1b}`.
///
/// # Errors
///
/// If memory is refused.
pub fn error_line<T: Display>(alloc: Global, program: &str, what: &T) -> Result<String, AllocError>
    ensures ok { IfOk result (λ said. (text : List ℕ) × (string_bytes said ≡ line_of program.now text)
        × IfSome (T.output what.now) (λ displayed. text ≡ displayed)) }
{
    let text = format!(in alloc; "{what}")?;
    line(alloc, program, text.as_str())
}

// Writes the line `PROGRAM: out of memory`, without taking memory.
fn say_no_memory(rt: &HostRuntime, program: &str) -> io::Result<()> {
    let mut stderr = rt.stderr();
    stderr.write_all(program.as_bytes())?;
    stderr.write_all(b": out of memory\n")
}

/// Writes one line to standard error: the program's name, a colon, and the text of `what`. Each line end and
/// each other control character in the text is escaped, as `\n` or `\u{1b}`. If memory for the line is
/// refused, the text is `out of memory`. If the write fails, the error is ignored.
pub fn say<T: Display>(rt: &HostRuntime, program: &str, what: &T) {
    let _ = match error_line(rt.alloc(), program, what) {
        Ok(line) => rt.stderr().write_all(line.as_bytes()),
        Err(_) => say_no_memory(rt, program),
    };
}

fn are_digits(bytes: &[u8]) -> bool
    ensures { result ≡ list_all is_ascii_digit bytes.now }
{
    bytes.iter().all(|byte| byte.is_ascii_digit())
}

/// Returns true if the text is one or more decimal digits and nothing else.
pub fn is_decimal(text: &str) -> bool
    ensures { result ≡ (nat_lt 0 (length text.now) && list_all is_ascii_digit text.now) }
{
    if text.is_empty() {
        return false;
    }
    are_digits(text.as_bytes())
}
