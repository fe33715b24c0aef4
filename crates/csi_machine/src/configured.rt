//! Gives the proofs of requests the laws of a configuration in one call.

ghost use Rattle.csi_machine.specs.Configured.{IsConfigured};

use csi_config::Config;
use csi_config::laws::{node_ids_differ, pool_bytes_whole, pool_names_differ, sizes_whole};

/// Gives four laws of a configuration in one call, for proofs that need several of them: the laws about the
/// sizes of volumes, the sizes of pools, the names of pools and the ids of nodes.
#[inline(always)]
pub(crate) fn configured(config: &Config)
    ensures { IsConfigured config.now }
{
    sizes_whole(config);
    pool_bytes_whole(config);
    pool_names_differ(config);
    node_ids_differ(config);
}
