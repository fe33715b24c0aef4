//! Laws about the pages of rows that a change store returns. A law is a function that does nothing: its
//! caller gets what the contract of the law states.

ghost use Rattle.csi_change_store.specs.Giving.{GivesRows};
ghost use Rattle.csi_change_store.specs.Sample.{ReadsSample};

use pbwire::laws::listed;

/// If pages contain the rows of a State, new tables with these rows represent that State.
pub fn gives_rows()
    ensures { GivesRows }
{}

/// Two pages, given as bytes, have the expected contents. One is the reply of a change store whose only row
/// is the row of the table `meta`. The other is a reply with a volume.
pub fn reads_sample()
    ensures { ReadsSample }
{
    listed();
}
