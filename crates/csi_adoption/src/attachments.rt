//! Scans the table of attachments for broken constraints, and counts the attachments of each node.

ghost use Rattle.std.specs.Prelude.{◌≡◌, IfOk, map};
ghost use Rattle.sqlite.specs.Held.{state};
ghost use Rattle.sqlite.specs.State.{HasCleanDisk};
ghost use Rattle.csi_sql.specs.Tables.{schema as our_schema};
ghost use Rattle.csi_sql.specs.Rows.{seen_attachment};
ghost use Rattle.csi_constraints.specs.Scans.{IsInOrder, keyed_attachment, owners};
ghost use Rattle.csi_constraints.specs.Apart.{apart_named};
ghost use Rattle.csi_constraints.specs.Joins.{is_owned};
ghost use Rattle.csi_adoption.specs.Failing.{ScanFails};
ghost use Rattle.csi_adoption.specs.Judging.{SeesAttachments, first_named};
ghost use Rattle.csi_adoption.specs.Scanning.{Scans, SeenBy};

use crate::seen::AttachmentsSeen;
use crate::starts::{rising_start, unbroken, unbroken_test};
use crate::sums::node_sums;
use csi_config::Config;
use csi_constraints::{
    FirstApart, FirstBroken, FirstUnowned, FoldEach, HasAttachmentKinds, HasCap, HasFlag,
    InfallibleTest, IsAtNode, Rising, RowName, TextSum, scan_attachments, scan_owners, scan_places,
};
use csi_sql::{Fold, IdleConnection};
use sqlite::{Alter, Error, ErrorCode, Row};
use std::alloc::{AllocError, Global};

// The folds over the rows of attachments, for the columns after the rowid. The rowids must rise.
#[derive(Drop)]
struct AttachmentsFold<'a> {
    kinds: FirstBroken<InfallibleTest<HasAttachmentKinds>>,
    rising: Rising,
    cap: FirstBroken<HasCap>,
    readonly: FirstBroken<InfallibleTest<HasFlag>>,
    node: FirstBroken<InfallibleTest<IsAtNode<'a>>>,
    node_volumes: FoldEach<TextSum>,
}

impl Fold for AttachmentsFold<'_> {
    ghost use Rattle.csi_adoption.specs.Folding.{AttachmentTakesMemory, FoldsAttachments};
    ghost use Rattle.csi_adoption.specs.facts.Starts.{attachments_start};

    ghost folds = { FoldsAttachments };

    ghost takes_memory = { AttachmentTakesMemory };

    ghost starts = { attachments_start };

    fn add_row(&mut self, row: &Row) -> Result<(), Error> {
        self.kinds.add_row(row)?;
        self.rising.add_row(row)?;
        self.cap.add_row(row)?;
        self.readonly.add_row(row)?;
        self.node.add_row(row)?;
        self.node_volumes.add_row(row)?;
        Ok(())
    }
}

impl<'a> AttachmentsFold<'a> {
    ghost use Rattle.csi_adoption.specs.Folding.{BeginsAttachments, attachments_seen};

    // Makes the folds, which have not taken any row.
    fn new(alloc: Global, config: &'a Config) -> Result<AttachmentsFold<'a>, AllocError>
        ensures { IfOk result (BeginsAttachments config.now) }
    {
        let node_volumes = node_sums(alloc, config.nodes())?;
        Ok(AttachmentsFold {
            kinds: unbroken_test(alloc, HasAttachmentKinds, 0, 2),
            rising: rising_start(),
            cap: unbroken(alloc, HasCap { alloc }, 1, 2),
            readonly: unbroken_test(alloc, HasFlag, 1, 2),
            node: unbroken_test(alloc, IsAtNode { config }, 1, 2),
            node_volumes,
        })
    }

    // Returns the result of the scan. Moves the fields out in a separate function, in which no call can fail.
    fn into_seen(self) -> AttachmentsSeen
        ensures { result ≡ attachments_seen self.entry }
    {
        AttachmentsSeen {
            kinds: self.kinds.found,
            cap: self.cap.found,
            readonly: self.readonly.found,
            node: self.node.found,
            node_volumes: self.node_volumes.parts,
        }
    }
}

/// Scans the rows of attachments, each with its rowid: finds broken constraints, and counts the attachments
/// of each node. Fails if the database or memory fails, or if the rowids do not rise.
pub(crate) fn see_attachments<S: Alter>(
    alloc: Global,
    conn: &mut IdleConnection<S>,
    config: &Config,
) -> Result<AttachmentsSeen, Error>
    requires has_schema { HasCleanDisk (state S.Store conn.old) → conn.old.schema ≡ our_schema }
    ensures scans { Scans S.Store conn.old conn.new result }
    ensures failed { ScanFails S.Store conn.old conn.new result }
    ensures seen { SeenBy S.Store conn.old conn.new result
        (λ db rows. IsInOrder (map keyed_attachment (db 3)) rows)
        (λ rows seen. SeesAttachments config.now rows seen) }
{
    let mut fold = AttachmentsFold::new(alloc, config)?;
    let scanned = scan_attachments(conn, &mut fold);
    let rises = fold.rising.good;
    let seen = fold.into_seen();
    scanned?;
    if !rises {
        return Err(Error::SqliteFailure(ErrorCode::DatabaseCorrupt));
    }
    Ok(seen)
}

/// Returns the first attachment, in rising order of volume numbers, whose volume does not exist or does not
/// have the attachment's capability. Returns `None` if there is no such attachment. Fails if the database or
/// memory fails.
pub(crate) fn see_owners<S: Alter>(
    alloc: Global,
    conn: &mut IdleConnection<S>,
) -> Result<Option<RowName>, Error>
    requires has_schema { HasCleanDisk (state S.Store conn.old) → conn.old.schema ≡ our_schema }
    ensures scans { Scans S.Store conn.old conn.new result }
    ensures failed { ScanFails S.Store conn.old conn.new result }
    ensures seen { SeenBy S.Store conn.old conn.new result (λ db rows. IsInOrder (owners (db 3) (db 1)) rows)
        (λ rows found. found ≡ first_named 0 1 is_owned rows) }
{
    let mut fold = FirstUnowned {
        alloc,
        last: None,
        found: None,
    };
    scan_owners(conn, &mut fold)?;
    Ok(fold.found)
}

/// Returns the first attachment, in rising order of volume numbers, that cannot coexist with an earlier
/// attachment of its volume. Returns `None` if there is no such attachment. Fails if the database or memory
/// fails.
pub(crate) fn see_apart<S: Alter>(
    alloc: Global,
    conn: &mut IdleConnection<S>,
) -> Result<Option<RowName>, Error>
    requires has_schema { HasCleanDisk (state S.Store conn.old) → conn.old.schema ≡ our_schema }
    ensures scans { Scans S.Store conn.old conn.new result }
    ensures failed { ScanFails S.Store conn.old conn.new result }
    ensures seen { SeenBy S.Store conn.old conn.new result
        (λ db rows. IsInOrder (map seen_attachment (db 3)) rows)
        (λ rows found. found ≡ apart_named rows) }
{
    let mut fold = FirstApart {
        alloc,
        last: None,
        found: None,
    };
    scan_places(conn, &mut fold)?;
    Ok(fold.found)
}
