//! Answers test lines about tables: statements and scans over tables, the constraints on stored rows, the
//! volume machine over tables, the adoption of tables, tables in files whose disk stopped in a call, and runs
//! over files. The lines are the rows of this crate's file `stdin` (`test_kit`). The head of each section in
//! `stdin` describes its lines. If a line cannot be answered, its answer is the text of the reason
//! (`test_kit::RowFault`).
#![tactic(auto)]

mod adoption;
mod cells;
mod constraints;
mod database;
mod files;
mod numbers;
mod scans;
mod state;
mod statements;
mod stops;
mod tables;

use files::disks::{Faulty, TestDisk};
use sqlite_disk::{Fuse, Memory};
use std::io::Write;
use std::process::ExitCode;
use test_kit::{AnswerRow, AnswerSection, RowAnswer, RowFault, Rows, answer_rows};

// A section that keeps no state between rows.
#[derive(Clone, Copy)]
enum Plain {
    Scans,
    Constraints,
    Adoption,
}

impl AnswerRow for Plain {
    fn answer_row(&mut self, rt: &HostRuntime, row: &str) -> Result<RowAnswer, RowFault> {
        Ok(RowAnswer::Text(match self {
            Plain::Scans => scans::answer(rt.alloc(), row)?,
            Plain::Constraints => constraints::answer(rt.alloc(), row)?,
            Plain::Adoption => adoption::answer(rt.alloc(), row)?,
        }))
    }
}

// Answers the rows of a section over files. Only the caller names the type of their disks, since each call
// that names this type is expensive to prove.
fn answer_on<D: TestDisk, W: Write>(
    rt: &HostRuntime,
    name: &str,
    rows: &mut Rows<'_, W>,
) -> Result<(), RowFault> {
    match name {
        "stops" => answer(rt, rows, stops::Bench::<D>::new(rt.alloc())),
        "files" => answer(rt, rows, files::Bench::<D>::new(rt.alloc())),
        _ => Err(RowFault::NotRow),
    }
}

#[derive(Drop)]
struct Sections;

impl AnswerSection for Sections {
    fn answer_section<W: Write>(
        &self,
        rt: &HostRuntime,
        name: &str,
        rows: &mut Rows<'_, W>,
    ) -> Result<(), RowFault> {
        match name {
            "statements" => answer(rt, rows, statements::in_memory(rt.alloc())),
            "scans" => answer(rt, rows, Ok(Plain::Scans)),
            "constraints" => answer(rt, rows, Ok(Plain::Constraints)),
            "tables" => answer(rt, rows, tables::Bench::new(rt.alloc())),
            "adoption" => answer(rt, rows, Ok(Plain::Adoption)),
            _ => answer_on::<Faulty<Fuse<Memory>>, W>(rt, name, rows),
        }
    }
}

// Answers the rows of a section, or returns the fault if the section could not begin. This function owns the
// large values that sections keep, since its types are generic.
fn answer<W: Write, R: AnswerRow + Drop>(
    rt: &HostRuntime,
    rows: &mut Rows<'_, W>,
    section: Result<R, RowFault>,
) -> Result<(), RowFault> {
    rows.answer(rt, &mut section?);
    Ok(())
}

fn main(rt: HostRuntime) -> ExitCode {
    answer_rows(&rt, &Sections)
}
