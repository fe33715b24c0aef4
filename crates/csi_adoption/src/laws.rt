//! Laws of adoption. Rows that pass every constraint are the rows of a State. The rows of a State that meets
//! the invariant pass every constraint. A law is a function that does nothing: its caller gets what the
//! contract of the law states.

ghost use Rattle.csi_adoption.specs.Again.{EitherTaken, EndsTaken, StopsTaken};
ghost use Rattle.csi_adoption.specs.Laws.{FindsTotals, FindsVolumes, HasNoOtherPool, PassesMeta, PassesVolumes, ReportsCounts, ReportsPools, ReportsRooms};

use csi_tables::laws::one_state;
use sqlite::Alter;

/// Rows of volumes that pass every constraint are the rows of the volumes of a State.
pub fn volumes_found()
    ensures { FindsVolumes }
{
    csi_constraints::laws::volumes();
}

/// The rows of the volumes of a State pass each constraint on a single row.
pub fn volumes_pass()
    ensures { PassesVolumes }
{
    csi_constraints::laws::volumes();
}

/// The row of the table `meta` for a State has the format of the tables and the State's next number.
pub fn meta_pass()
    ensures { PassesMeta }
{}

/// If a number of rows is below 2^64, a scan reports exactly this number. A scan reports a sum of at most
/// 2^64 - 1 exactly, and a greater sum as 2^64 - 1. So if a bound is below 2^64 - 1, the reported sum is
/// within the bound if and only if the true sum is.
pub fn sums_reported()
    ensures counts { ReportsCounts }
    ensures rooms { ReportsRooms }
{}

/// If rows of volumes pass every constraint, the reported totals of a pool are the number of its volumes and
/// the sum of their bytes.
pub fn pools_reported()
    ensures { ReportsPools }
{}

/// If rows of volumes pass every constraint, the volume of each row is in a pool of the configuration.
pub fn pools_elsewhere()
    ensures { HasNoOtherPool }
{}

/// If rows of volumes pass every constraint, the reported totals of each pool are the number of volumes that
/// are found in the pool, and the sum of their bytes.
pub fn totals_found()
    ensures { FindsTotals }
{}

/// If the tables that a keeper left are adopted, the new keeper has the State that was left. This holds
/// unless the database or memory fails. The State must meet the invariant, as each State of the volume
/// machine does.
///
/// - `ended`: the keeper ended without a stop. Its own connection is adopted, with the keeper's State.
/// - `stopped`: a stop ended the keeper. Any connection to the database that the stop left is adopted, with
///   one of the States that the stop may leave.
/// - `either`: tables of format 1 are adopted as well as tables of format 2.
pub fn adopted_again<S: Alter>()
    ensures ended { EndsTaken S.Store }
    ensures stopped { StopsTaken S.Store }
    ensures either { EitherTaken S.Store }
{
    one_state();
}
