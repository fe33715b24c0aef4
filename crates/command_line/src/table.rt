//! Writes rows of words in columns.

use std::alloc::{AllocError, Global};

// The number of spaces between the longest word of a column and the next column.
const GAP: usize = 2;

// The greatest width of a column in bytes. A longer word does not widen its column, so that it costs no space
// in other rows.
const WIDEST: usize = 80;

/// Rows of words that are shown in columns. A column is as wide as its longest word of at most 80 bytes. If a
/// word is longer than the column is wide, the rest of its row moves to the right.
#[derive(Drop)]
pub struct Table {
    rows: Vec<Vec<String>>,
    widths: Vec<usize>,
}

fn put_spaces(out: &mut String, count: usize) -> Result<(), AllocError> {
    for _ in 0..count {
        out.push(' ')?;
    }
    Ok(())
}

// Appends the words of a row. Spaces fill each word but the last up to the next column.
fn put_row(out: &mut String, row: &[String], widths: &[usize]) -> Result<(), AllocError> {
    let mut missing = 0_usize;
    for (word, width) in row.iter().zip(widths) {
        put_spaces(out, missing)?;
        out.push_str(word.as_str())?;
        missing = width.saturating_sub(word.len()).saturating_add(GAP);
    }
    out.push('\n')
}

// Returns the width that a word needs in bytes, or 0 if the word is longer than 80 bytes.
fn width_of(word: &str) -> usize {
    if word.len() <= WIDEST { word.len() } else { 0 }
}

// Widens the columns so that the words of a row fit, except words of more than 80 bytes.
fn widen(widths: &mut Vec<usize>, row: &[String]) -> Result<(), AllocError> {
    for (at, word) in row.iter().enumerate() {
        let wanted = width_of(word.as_str());
        match widths.get_mut(at) {
            Some(width) => *width = (*width).max(wanted),
            None => widths.push(wanted)?,
        }
    }
    Ok(())
}

impl Table {
    /// Makes a table without rows and without headings.
    pub fn new(alloc: Global) -> Table {
        Table {
            rows: Vec::new(alloc),
            widths: Vec::new(alloc),
        }
    }

    /// Makes a table whose first row has these headings.
    ///
    /// # Errors
    ///
    /// If memory is refused.
    pub fn with_headings(alloc: Global, headings: &[&'static str]) -> Result<Table, AllocError> {
        let mut row = Vec::new(alloc);
        for heading in headings {
            row.push(String::from_str(alloc, heading)?)?;
        }
        let mut table = Table::new(alloc);
        table.add(row)?;
        Ok(table)
    }

    /// Adds a row of words after the other rows, and widens the columns that are too narrow for it.
    ///
    /// # Errors
    ///
    /// If memory is refused.
    pub fn add(&mut self, row: Vec<String>) -> Result<(), AllocError> {
        widen(&mut self.widths, row.as_slice())?;
        self.rows.push(row)?;
        Ok(())
    }

    /// Adds a row of two words, a heading and a value.
    ///
    /// # Errors
    ///
    /// If memory is refused.
    pub fn add_pair(
        &mut self,
        alloc: Global,
        heading: &str,
        word: String,
    ) -> Result<(), AllocError> {
        let mut row = Vec::new(alloc);
        row.push(String::from_str(alloc, heading)?)?;
        row.push(word)?;
        self.add(row)
    }

    /// Returns the table as text, with one line for each row.
    ///
    /// # Errors
    ///
    /// If memory is refused.
    pub fn text(&self, alloc: Global) -> Result<String, AllocError> {
        let mut out = String::new(alloc);
        for row in &self.rows {
            put_row(&mut out, row.as_slice(), self.widths.as_slice())?;
        }
        Ok(out)
    }
}
