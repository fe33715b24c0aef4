//! Makes each read over a connection, and returns values of the State.
//!
//! A volume's number in the arguments of a read must be below 2^63. A read fails if the database refuses it
//! or memory is refused. If a row has values that this program does not write, the read is refused. After the
//! rows were checked when the tables were opened, a read finds such values only if the disk returns other
//! bytes than were written.

ghost use Rattle.std.specs.Prelude.{◌≡◌, ◌<◌, ◌^◌, IfOk, is_some, option_map};
ghost use Rattle.std.specs.FinMap.{get};
ghost use Rattle.csi_keeper.specs.Listing.{IsPageWithNodes};
ghost use Rattle.csi_keeper.specs.State.{attached, attached_at, named, page, sizes};
ghost use Rattle.csi_tables.specs.Reading.{ReportsAttached, ReportsAttachments, ReportsExistence, ReportsNamed, ReportsNext, ReportsNumbered, ReportsPage, ReportsPageWithNodes, ReportsSizes, share};
ghost use Rattle.csi_tables.specs.Refusing.{ConnReads};

use crate::fault::TablesError;
use crate::nodes::nodes_of_each;
use crate::rows::{
    attachments_from, number_in, numbers_from, numbers_of, share_of, volume_of, volumes_from,
};
use csi_keeper::{Attachment, PageWithNodes, Volume};
use csi_sql::{IdleConnection, reads};
use csi_types::{Items, Text};
use sqlite::Alter;
use std::alloc::Global;

/// Returns the number that the next volume gets.
pub(crate) fn next_number<S: Alter>(conn: &mut IdleConnection<S>) -> Result<u64, TablesError>
    ensures reads { ConnReads S.Store conn.old conn.new (λ s n. n ≡ s.next) result }
    ensures exact { IfOk result (λ n. ReportsNext S.Store conn.old conn.new n) }
{
    let row = reads::next_number(conn)?;
    number_in(&row, 0)
}

/// Returns the volume with this number, or `None` if no volume has the number.
pub(crate) fn by_number<S: Alter>(
    alloc: Global,
    conn: &mut IdleConnection<S>,
    number: u64,
) -> Result<Option<Volume>, TablesError>
    requires number { number < 2 ^ 63 }
    ensures reads { ConnReads S.Store conn.old conn.new (λ s v. v ≡ get s.volumes number) result }
    ensures exact { IfOk result (ReportsNumbered S.Store conn.old conn.new number) }
{
    let found = reads::by_number(conn, number)?;
    volume_of(alloc, found)
}

/// Returns true if a volume has this number. The values of its row are not decoded.
pub(crate) fn has_volume<S: Alter>(
    conn: &mut IdleConnection<S>,
    number: u64,
) -> Result<bool, TablesError>
    requires number { number < 2 ^ 63 }
    ensures reads { ConnReads S.Store conn.old conn.new
        (λ s has. has ≡ is_some (get s.volumes number)) result }
    ensures exact { IfOk result (ReportsExistence S.Store conn.old conn.new number) }
{
    let found = reads::by_number(conn, number)?;
    Ok(found.is_some())
}

/// Returns the pool of the volume with this number, and the size of the volume in bytes, or `None` if no
/// volume has the number.
pub(crate) fn share<S: Alter>(
    conn: &mut IdleConnection<S>,
    number: u64,
) -> Result<Option<(Text, u64)>, TablesError>
    requires number { number < 2 ^ 63 }
    ensures { ConnReads S.Store conn.old conn.new
        (λ s found. found ≡ option_map share (get s.volumes number)) result }
{
    let found = reads::by_number(conn, number)?;
    share_of(found)
}

/// Returns the volume with this name, or `None` if no volume has the name.
pub(crate) fn by_name<S: Alter>(
    alloc: Global,
    conn: &mut IdleConnection<S>,
    name: &str,
) -> Result<Option<Volume>, TablesError>
    ensures reads { ConnReads S.Store conn.old conn.new (λ s v. v ≡ named s name.now) result }
    ensures exact { IfOk result (ReportsNamed S.Store conn.old conn.new name.now) }
{
    let found = reads::by_name(conn, name)?;
    volume_of(alloc, found)
}

/// Returns the attachments of the volume with this number, in byte order of their nodes.
pub(crate) fn attachments<S: Alter>(
    alloc: Global,
    conn: &mut IdleConnection<S>,
    number: u64,
) -> Result<Items<Attachment>, TablesError>
    requires number { number < 2 ^ 63 }
    ensures reads { ConnReads S.Store conn.old conn.new (λ s xs. xs ≡ attached s number) result }
    ensures exact { IfOk result (ReportsAttachments S.Store conn.old conn.new number) }
{
    let rows = reads::attachments(conn, number)?;
    attachments_from(alloc, &rows)
}

/// Returns the numbers of the volumes that are attached to this node, in rising order.
pub(crate) fn attached_at<S: Alter>(
    alloc: Global,
    conn: &mut IdleConnection<S>,
    node: &str,
) -> Result<Items<u64>, TablesError>
    ensures reads { ConnReads S.Store conn.old conn.new (λ s xs. xs ≡ attached_at s node.now) result }
    ensures exact { IfOk result (ReportsAttached S.Store conn.old conn.new node.now) }
{
    let rows = reads::attached_at(conn, node)?;
    numbers_from(alloc, &rows)
}

/// Returns the sizes in bytes of the volumes in this pool, in rising order of the volumes' numbers.
pub(crate) fn sizes_in<S: Alter>(
    alloc: Global,
    conn: &mut IdleConnection<S>,
    pool: &str,
) -> Result<Items<u64>, TablesError>
    ensures reads { ConnReads S.Store conn.old conn.new (λ s xs. xs ≡ sizes s pool.now) result }
    ensures exact { IfOk result (ReportsSizes S.Store conn.old conn.new pool.now) }
{
    let rows = reads::sizes_in(conn, pool)?;
    numbers_from(alloc, &rows)
}

/// Returns the first `count` volumes whose number is greater than `after`, in rising order of their numbers.
pub(crate) fn page<S: Alter>(
    alloc: Global,
    conn: &mut IdleConnection<S>,
    after: u64,
    count: u32,
) -> Result<Items<Volume>, TablesError>
    requires after { after < 2 ^ 63 }
    ensures reads { ConnReads S.Store conn.old conn.new (λ s xs. xs ≡ page s after count) result }
    ensures exact { IfOk result (ReportsPage S.Store conn.old conn.new after count) }
{
    let rows = reads::page(conn, after, count)?;
    volumes_from(alloc, &rows)
}

/// Returns the first `count` volumes whose number is greater than `after`, in rising order of their numbers.
/// `after` must be below 2^63. Each volume comes with the ids of its nodes in byte order. The whole page is
/// one read. The rows need not have been checked before.
///
/// # Errors
///
/// If the database refuses the read, a row has values that this program does not write, or memory is refused.
pub fn page_with_nodes<S: Alter>(
    alloc: Global,
    conn: &mut IdleConnection<S>,
    after: u64,
    count: u32,
) -> Result<PageWithNodes, TablesError>
    requires after { after < 2 ^ 63 }
    ensures reads { ConnReads S.Store conn.old conn.new (λ s p. IsPageWithNodes s after count p) result }
    ensures exact { IfOk result (ReportsPageWithNodes S.Store conn.old conn.new after count) }
{
    let page = reads::page_with_nodes(conn, after, count)?;
    let volumes = volumes_from(alloc, &page.volumes)?;
    let numbers = numbers_of(alloc, volumes.as_slice())?;
    let nodes = nodes_of_each(alloc, &numbers, &page.places)?;
    Ok(PageWithNodes { volumes, nodes })
}
