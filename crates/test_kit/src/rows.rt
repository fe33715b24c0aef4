//! Writes the lines of the input, and the answer to each row.

use crate::fault::RowFault;
use std::io::{self, Read, Write};
use std::process::ExitCode;

// The exit status if the input cannot be read or the output cannot be written.
const INPUT_OUTPUT: u8 = 5;

// The first characters of a line that begins a section.
const HEAD: &str = "@ ";

/// The answer to a row of the input.
#[derive(Drop)]
pub enum RowAnswer {
    /// No answer. The row itself is not written either.
    Nothing,
    /// A text, which is written on the line of the row, after ` -> `.
    Text(String),
    /// Lines with their line ends, which are written below the row.
    Lines(Vec<u8>),
}

/// A section, which answers its rows in the order of the input.
pub trait AnswerRow {
    /// Returns the answer to a row of the input.
    ///
    /// # Errors
    ///
    /// If the row cannot be answered. The fault is then written in place of the answer.
    fn answer_row(&mut self, rt: &HostRuntime, row: &str) -> Result<RowAnswer, RowFault>;
}

/// A test program, which answers its sections in the order of the input.
pub trait AnswerSection {
    /// Answers the rows of the section with this name, by calling [`Rows::answer`].
    ///
    /// # Errors
    ///
    /// If the program has no section with this name, or the section cannot begin. Then no row of the section
    /// is answered.
    fn answer_section<W: Write>(
        &self,
        rt: &HostRuntime,
        name: &str,
        rows: &mut Rows<'_, W>,
    ) -> Result<(), RowFault>;
}

/// The lines of a section, and the writer for the lines and their answers.
#[derive(Drop)]
pub struct Rows<'a, W> {
    name: &'a str,
    lines: &'a str,
    out: &'a mut W,
    // The first error of writing, or `Ok` if no write has failed.
    end: io::Result<()>,
}

impl<W: Write> Rows<'_, W> {
    /// Answers the rows of the section, and writes each row with its answer. A row with the answer
    /// [`RowAnswer::Nothing`] is not written. After a failed write, no more rows are answered.
    pub fn answer<R: AnswerRow>(&mut self, rt: &HostRuntime, section: &mut R) {
        self.end = writeln!(self.out, "{HEAD}{}", self.name);
        for line in self.lines.split('\n') {
            if self.end.is_ok() {
                self.end = answer_line(rt, section, self.out, line);
            }
        }
    }
}

fn write_answer<W: Write>(
    out: &mut W,
    row: &str,
    answer: Result<RowAnswer, RowFault>,
) -> io::Result<()> {
    match answer {
        Ok(RowAnswer::Nothing) => Ok(()),
        Ok(RowAnswer::Text(text)) => writeln!(out, "{row} -> {text}"),
        Ok(RowAnswer::Lines(lines)) => {
            writeln!(out, "{row} ->")?;
            out.write_all(&lines)
        }
        Err(fault) => writeln!(out, "{row} -> {fault}"),
    }
}

fn answer_line<W: Write, R: AnswerRow>(
    rt: &HostRuntime,
    section: &mut R,
    out: &mut W,
    line: &str,
) -> io::Result<()> {
    if line.is_empty() || line.starts_with('#') {
        return writeln!(out, "{line}");
    }
    write_answer(out, line, section.answer_row(rt, line))
}

// Answers one section. The first line of `section` is the name of the section, and its other lines are the
// lines of the section.
fn answer_lines<W: Write, S: AnswerSection>(
    rt: &HostRuntime,
    sections: &S,
    out: &mut W,
    section: &str,
) -> io::Result<()> {
    let (name, lines) = section.split_once('\n').unwrap_or((section, ""));
    let mut rows = Rows {
        name,
        lines,
        out,
        end: Ok(()),
    };
    match sections.answer_section(rt, name, &mut rows) {
        Ok(()) => rows.end,
        Err(fault) => writeln!(rows.out, "{HEAD}{name} -> {fault}"),
    }
}

/// Answers the sections of standard input on standard output. Returns the exit status: 0, or 5 if the input
/// cannot be read or the output cannot be written.
pub fn answer_rows<S: AnswerSection>(rt: &HostRuntime, sections: &S) -> ExitCode {
    let mut text = String::new(rt.alloc());
    if rt.stdin().read_to_string(&mut text).is_err() {
        return ExitCode::from(INPUT_OUTPUT);
    }
    let text = text.strip_suffix('\n').unwrap_or(text.as_str());
    let text = text.strip_prefix(HEAD).unwrap_or(text);
    let mut out = rt.stdout();
    for section in text.split("\n@ ") {
        if answer_lines(rt, sections, &mut out, section).is_err() {
            return ExitCode::from(INPUT_OUTPUT);
        }
    }
    ExitCode::SUCCESS
}
