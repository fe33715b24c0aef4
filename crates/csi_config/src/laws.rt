//! Laws that hold for each configuration, because a configuration has no fault. A law is a function that does
//! nothing: its caller gets what the contract of the law states.

ghost use Rattle.std.specs.Prelude.{◌≡◌, ◌≤◌, ◌<◌, ◌^◌, false, true, length};
ghost use Rattle.std.specs.FinMap.{len};
ghost use Rattle.csi_types.specs.Topology.{has_alike_keys};
ghost use Rattle.csi_types.specs.declared.limits.TheConstants.{MAX_NODES, MAX_POOLS, MAX_SEGMENTS, MAX_TEXT_BYTES, MAX_VOLUMES};
ghost use Rattle.csi_config.specs.Faults.{all_bytes, is_plugin_name, is_pool_name, is_whole};
ghost use Rattle.csi_config.specs.Values.{Has};
ghost use Rattle.csi_config.specs.declared.nodes.Node.{Node};
ghost use Rattle.csi_config.specs.declared.plugin.TheConstants.{MAX_NAME_BYTES};
ghost use Rattle.csi_config.specs.declared.pools.Pool.{Pool};

use crate::config::Config;
use crate::nodes::Node;
use crate::pools::Pool;
use csi_types::laws::pairs;

/// The plugin's name has 1 to 63 bytes and the form that [`Plugin`](crate::Plugin) states, and its version
/// has 1 to 128 bytes.
#[inline(always)]
pub fn plugin_named(config: &Config)
    ensures name { is_plugin_name config.now.plugin.name ≡ true }
    ensures name_given { 0 < length config.now.plugin.name }
    ensures name_short { length config.now.plugin.name ≤ MAX_NAME_BYTES }
    ensures version_given { 0 < length config.now.plugin.version }
    ensures version_short { length config.now.plugin.version ≤ MAX_TEXT_BYTES }
{}

/// The default size and the greatest size are positive multiples of 1 MiB. The default size is at most the
/// greatest size, and the greatest size is at most 2^62 bytes.
#[inline(always)]
pub fn sizes_whole(config: &Config)
    ensures default { is_whole config.now.sizes.default_bytes ≡ true }
    ensures greatest { is_whole config.now.sizes.greatest_bytes ≡ true }
    ensures order { config.now.sizes.default_bytes ≤ config.now.sizes.greatest_bytes }
    ensures limit { config.now.sizes.greatest_bytes ≤ 2 ^ 62 }
{}

/// A configuration has 1 to 16 pools, each with a valid name.
#[inline(always)]
pub fn pools_named(config: &Config)
    ensures positive { 0 < length config.now.pools }
    ensures bounded { length config.now.pools ≤ MAX_POOLS }
    ensures names { (p : Pool) → Has config.now.pools p → is_pool_name p.name ≡ true }
{}

/// No two pools have the same name.
#[inline(always)]
pub fn pool_names_differ(config: &Config)
    ensures { (p q : Pool) → Has config.now.pools p → Has config.now.pools q → p.name ≡ q.name → p ≡ q }
{
    pairs::<Pool>();
}

/// The size of each pool is a positive multiple of 1 MiB, and the sizes add up to at most 2^62 bytes.
#[inline(always)]
pub fn pool_bytes_whole(config: &Config)
    ensures in_granules { (p : Pool) → Has config.now.pools p → is_whole p.bytes ≡ true }
    ensures each { (p : Pool) → Has config.now.pools p → p.bytes ≤ 2 ^ 62 }
    ensures all { all_bytes config.now.pools ≤ 2 ^ 62 }
{}

/// Each pool has at most 8 segments, and no two keys of a pool are equal, ignoring the case of ASCII
/// letters.
#[inline(always)]
pub fn pool_keys_differ(config: &Config)
    ensures bounded { (p : Pool) → Has config.now.pools p → len p.segments ≤ MAX_SEGMENTS }
    ensures differ { (p : Pool) → Has config.now.pools p → has_alike_keys p.segments ≡ false }
{}

/// A configuration has at most 64 nodes, and no two nodes have the same id.
#[inline(always)]
pub fn node_ids_differ(config: &Config)
    ensures bounded { length config.now.nodes ≤ MAX_NODES }
    ensures differ { (m n : Node) → Has config.now.nodes m → Has config.now.nodes n → m.id ≡ n.id → m ≡ n }
{
    pairs::<Node>();
}

/// The greatest number of volumes of each node is between 1 and 100,000, both included.
#[inline(always)]
pub fn node_volumes_few(config: &Config)
    ensures positive { (n : Node) → Has config.now.nodes n → 0 < n.max_volumes }
    ensures bounded { (n : Node) → Has config.now.nodes n → n.max_volumes ≤ MAX_VOLUMES }
{}
