//! The constraints on the columns `node` and `readonly` of a row of attachments.

ghost use Rattle.std.specs.Prelude.{◌≡◌};
ghost use Rattle.csi_constraints.specs.Attachments.{has_flag, is_at_node, is_node};

use crate::trial::RowTest;
use csi_config::{Config, Node};
use csi_sql::values::{flag_at, text_at};
use sqlite::Row;

/// Tests that `readonly` of an attachment is 0 or 1.
#[derive(Clone, Copy)]
pub struct HasFlag;

impl RowTest for HasFlag {
    ghost accepts = { λ _ row. has_flag row };

    fn test(&self, row: &Row) -> bool {
        flag_at(row, 4).is_some()
    }
}

fn is_node(nodes: &[Node], id: &[u8]) -> bool
    ensures { result ≡ is_node nodes.now id.now }
{
    nodes.iter().any(|node| node.id.as_bytes() == id)
}

/// Tests that the configuration has the node of an attachment.
#[derive(Clone, Copy)]
pub struct IsAtNode<'a> {
    /// The configuration whose nodes are allowed.
    pub config: &'a Config,
}

impl RowTest for IsAtNode<'_> {
    ghost accepts = { λ test row. is_at_node test.config.now.nodes row };

    fn test(&self, row: &Row) -> bool {
        match text_at(row, 2) {
            Some(id) => is_node(self.config.nodes(), id),
            None => false,
        }
    }
}
