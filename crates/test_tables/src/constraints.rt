//! Answers test rows, each of which tests one constraint on the volumes or the attachments of tables in
//! memory.

use crate::database::{idle, make, run, without_tables};
use crate::scans::Scan;
use csi_config::Config;
use csi_constraints::{
    AttachmentConstraint, BrokenConstraint, FirstApart, FirstBroken, FirstUnowned,
    HasAttachmentKinds, HasCap, HasCaps, HasFlag, HasParams, HasVolumeKinds, InfallibleTest,
    IsAtNode, IsInPools, IsNamed, IsNumbered, IsSized, RowName, RowTrial, VolumeConstraint,
};
use csi_sql::IdleConnection;
use csi_types::copy_text;
use sqlite::Alter;
use std::alloc::Global;
use std::fmt::{Display, Write};
use test_kit::{RowFault, number_at, word_at, words_of};

/// Answers a test row: makes the tables, runs the statements of the row, and tests its constraint.
///
/// # Errors
///
/// If the row has no such form, the database refuses a statement or the scan, or memory is refused.
pub(crate) fn answer(alloc: Global, row: &str) -> Result<String, RowFault> {
    let (constraint, statements) = row.split_once(" | ").ok_or(RowFault::NotRow)?;
    let config = Config::sample(alloc)?;
    let mut conn = without_tables(alloc)?;
    make(&mut conn)?;
    run(&mut conn, statements)?;
    look(alloc, &mut idle(conn)?, &config, constraint)
}

// Tests if the rows of the tables meet a constraint.
fn look<S: Alter>(
    alloc: Global,
    conn: &mut IdleConnection<S>,
    config: &Config,
    constraint: &str,
) -> Result<String, RowFault> {
    let words = words_of(alloc, constraint)?;
    match Scan::named(word_at(&words, 0)?)? {
        Scan::Meta => Err(RowFault::NotRow),
        Scan::Volumes => ask_volumes(alloc, conn, config, &words),
        Scan::Attachments => ask_attachments(alloc, conn, config, word_at(&words, 1)?),
        Scan::Owners => ask_owners(alloc, conn),
        Scan::Places => ask_places(alloc, conn),
    }
}

fn ask_owners<S: Alter>(alloc: Global, conn: &mut IdleConnection<S>) -> Result<String, RowFault> {
    let mut fold = FirstUnowned {
        alloc,
        last: None,
        found: None,
    };
    Scan::Owners.over(conn, &mut fold)?;
    reported(
        alloc,
        &fold.found,
        Words::Attachment(AttachmentConstraint::Owner),
    )
}

fn ask_places<S: Alter>(alloc: Global, conn: &mut IdleConnection<S>) -> Result<String, RowFault> {
    let mut fold = FirstApart {
        alloc,
        last: None,
        found: None,
    };
    Scan::Places.over(conn, &mut fold)?;
    reported(
        alloc,
        &fold.found,
        Words::Attachment(AttachmentConstraint::Coexist),
    )
}

fn ask_volumes<S: Alter>(
    alloc: Global,
    conn: &mut IdleConnection<S>,
    config: &Config,
    words: &[&str],
) -> Result<String, RowFault> {
    match word_at(words, 1)? {
        "kinds" => {
            let test = InfallibleTest {
                test: HasVolumeKinds,
            };
            ask(alloc, conn, Scan::Volumes, test, Words::Row)
        }
        "number" => {
            let next = number_at(words, 2)?;
            let test = InfallibleTest {
                test: IsNumbered { next },
            };
            ask_volume(alloc, conn, test, VolumeConstraint::Number)
        }
        "name" => {
            let test = InfallibleTest { test: IsNamed };
            ask_volume(alloc, conn, test, VolumeConstraint::Name)
        }
        "pool" => {
            let test = InfallibleTest {
                test: IsInPools { config },
            };
            ask_volume(alloc, conn, test, VolumeConstraint::Pool)
        }
        "bytes" => {
            let test = InfallibleTest { test: IsSized };
            ask_volume(alloc, conn, test, VolumeConstraint::Bytes)
        }
        "caps" => ask_volume(alloc, conn, HasCaps { alloc }, VolumeConstraint::Caps),
        "params" => {
            let format = number_at(words, 2)?;
            let test = HasParams { alloc, format };
            ask_volume(alloc, conn, test, VolumeConstraint::Params)
        }
        _ => Err(RowFault::NotRow),
    }
}

fn ask_volume<S: Alter, T: RowTrial + Drop>(
    alloc: Global,
    conn: &mut IdleConnection<S>,
    test: T,
    constraint: VolumeConstraint,
) -> Result<String, RowFault> {
    ask(alloc, conn, Scan::Volumes, test, Words::Volume(constraint))
}

fn ask_attachments<S: Alter>(
    alloc: Global,
    conn: &mut IdleConnection<S>,
    config: &Config,
    constraint: &str,
) -> Result<String, RowFault> {
    match constraint {
        "kinds" => {
            let test = InfallibleTest {
                test: HasAttachmentKinds,
            };
            ask(alloc, conn, Scan::Attachments, test, Words::Row)
        }
        "readonly" => {
            let words = Words::Attachment(AttachmentConstraint::Readonly);
            ask(
                alloc,
                conn,
                Scan::Attachments,
                InfallibleTest { test: HasFlag },
                words,
            )
        }
        "node" => {
            let words = Words::Attachment(AttachmentConstraint::Node);
            let test = InfallibleTest {
                test: IsAtNode { config },
            };
            ask(alloc, conn, Scan::Attachments, test, words)
        }
        "cap" => {
            let words = Words::Attachment(AttachmentConstraint::Cap);
            ask(alloc, conn, Scan::Attachments, HasCap { alloc }, words)
        }
        _ => Err(RowFault::NotRow),
    }
}

// Tests if all rows of a scan meet a constraint.
fn ask<S: Alter, T: RowTrial + Drop>(
    alloc: Global,
    conn: &mut IdleConnection<S>,
    scan: Scan,
    test: T,
    words: Words,
) -> Result<String, RowFault> {
    let (number, text) = match scan {
        Scan::Attachments => (1, 2),
        _ => (0, 1),
    };
    let mut fold = FirstBroken {
        alloc,
        test,
        number,
        text,
        found: None,
    };
    scan.over(conn, &mut fold)?;
    reported(alloc, &fold.found, words)
}

// The words with which the answer describes a row that breaks a constraint.
#[derive(Clone, Copy)]
enum Words {
    // The name of the row.
    Row,
    // The text of a constraint of volumes.
    Volume(VolumeConstraint),
    // The text of a constraint of attachments.
    Attachment(AttachmentConstraint),
}

// Returns `holds` if no row was found that breaks a constraint. Otherwise describes the row, which is the
// first such row of the scan.
fn reported(alloc: Global, found: &Option<RowName>, words: Words) -> Result<String, RowFault> {
    match found {
        Some(row) => broken_text(alloc, row, words),
        None => Ok(String::from_str(alloc, "holds")?),
    }
}

// Describes a row that breaks a constraint. If the words need a cell that the row lacks, the description has
// the cells that the row has.
fn broken_text(alloc: Global, row: &RowName, words: Words) -> Result<String, RowFault> {
    match (words, row.number, &row.text) {
        (Words::Volume(constraint), Some(number), _) => {
            displayed(alloc, &BrokenConstraint::Volume { number, constraint })
        }
        (Words::Attachment(constraint), Some(number), Some(node)) => {
            let broken = BrokenConstraint::Attachment {
                number,
                node: copy_text(alloc, node.as_str())?,
                constraint,
            };
            displayed(alloc, &broken)
        }
        _ => row_text(alloc, row),
    }
}

fn row_text(alloc: Global, row: &RowName) -> Result<String, RowFault> {
    let mut out = String::from_str(alloc, "broken")?;
    if row.number.is_some() || row.text.is_some() {
        out.push_str(" by")?;
    }
    if let Some(number) = row.number {
        write!(out, " {number}")?;
    }
    if let Some(text) = &row.text {
        write!(out, " '{text}'")?;
    }
    Ok(out)
}

fn displayed<T: Display>(alloc: Global, value: &T) -> Result<String, RowFault> {
    Ok(format!(in alloc; "{value}")?)
}
