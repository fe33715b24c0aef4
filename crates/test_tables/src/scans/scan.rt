//! The scans that test rows name.

use crate::database::refused;
use csi_constraints::{scan_attachments, scan_meta, scan_owners, scan_places, scan_volumes};
use csi_sql::{Fold, IdleConnection, is_our_schema};
use sqlite::Alter;
use test_kit::RowFault;

/// A scan of the tables. Each variant is one of the `scan_` functions of `csi_constraints`.
#[derive(Clone, Copy)]
pub(crate) enum Scan {
    Meta,
    Volumes,
    Attachments,
    Owners,
    Places,
}

impl Scan {
    /// Returns the scan with this name, or fails with [`RowFault::NotRow`] if no scan has the name.
    pub(crate) fn named(name: &str) -> Result<Scan, RowFault> {
        match name {
            "meta" => Ok(Scan::Meta),
            "volumes" => Ok(Scan::Volumes),
            "attachments" => Ok(Scan::Attachments),
            "owners" => Ok(Scan::Owners),
            "places" => Ok(Scan::Places),
            _ => Err(RowFault::NotRow),
        }
    }

    /// Passes each row of the scan to a fold. Fails with [`RowFault::Refused`] if the database has other
    /// tables or a read of it fails, and with [`RowFault::NoMemory`] if memory is refused.
    pub(crate) fn over<S: Alter, F: Fold>(
        self,
        conn: &mut IdleConnection<S>,
        fold: &mut F,
    ) -> Result<(), RowFault> {
        if !is_our_schema(conn.schema()) {
            return Err(RowFault::Refused("other tables"));
        }
        let looked = match self {
            Scan::Meta => scan_meta(conn, fold),
            Scan::Volumes => scan_volumes(conn, fold),
            Scan::Attachments => scan_attachments(conn, fold),
            Scan::Owners => scan_owners(conn, fold),
            Scan::Places => scan_places(conn, fold),
        };
        looked.map_err(refused)
    }
}
