//! Laws of the rows that represent a State. A law is a function that does nothing: its caller gets what the
//! contract of the law states.

ghost use Rattle.csi_tables.specs.Laws.{HaveKnownModes, LatestHas, OneState};

use csi_columns::laws::read_back;

/// The rows of tables, of either format, represent at most one State.
pub fn one_state()
    ensures { OneState }
{
    read_back();
}

/// If rows of either format represent a State, they represent the same State after the format number is set
/// to the latest format.
pub fn latest()
    ensures { LatestHas }
{}

/// In a State that meets the invariant, all access modes are known. The clauses of the keeper about refused
/// calls are only about States with known modes.
pub fn known_modes()
    ensures { HaveKnownModes }
{}
