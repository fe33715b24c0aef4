//! The sample configuration, which the test vectors use.

ghost use Rattle.std.specs.Prelude.{◌≡◌, IfOk};
ghost use Rattle.csi_config.specs.Sample.{sample_node, sample_nodes, sample_plugin, sample_pool, sample_pools};

use crate::config::Config;
use crate::nodes::Node;
use crate::plugin::Plugin;
use crate::pools::Pool;
use crate::sizes::Sizes;
use csi_types::{Map, Text};
use std::alloc::{AllocError, Global};

fn plugin(alloc: Global) -> Result<Plugin, AllocError>
    ensures { IfOk result (λ plugin. plugin ≡ sample_plugin) }
{
    Ok(Plugin {
        name: Text::from_str(alloc, "pools.example.org")?,
        version: Text::from_str(alloc, "1.0.0")?,
    })
}

// Makes a pool with one segment, whose key is `zone`.
fn pool(alloc: Global, name: &str, bytes: u64, zone: &str) -> Result<Pool, AllocError>
    ensures { IfOk result (λ pool. pool ≡ sample_pool name.now bytes zone.now) }
{
    let mut segments = Map::new(alloc);
    segments.insert(Text::from_str(alloc, "zone")?, Text::from_str(alloc, zone)?)?;
    Ok(Pool {
        name: Text::from_str(alloc, name)?,
        bytes,
        segments,
    })
}

// Makes a node to which two volumes can be published.
fn node(alloc: Global, id: &str) -> Result<Node, AllocError>
    ensures { IfOk result (λ node. node ≡ sample_node id.now) }
{
    Ok(Node {
        id: Text::from_str(alloc, id)?,
        max_volumes: 2,
    })
}

fn pools(alloc: Global) -> Result<Vec<Pool>, AllocError>
    ensures { IfOk result (λ pools. pools.items ≡ sample_pools) }
{
    let mut pools = Vec::new(alloc);
    pools.push(pool(alloc, "p1", 10_485_760, "a")?)?;
    pools.push(pool(alloc, "p2", 4_194_304, "b")?)?;
    Ok(pools)
}

fn nodes(alloc: Global) -> Result<Vec<Node>, AllocError>
    ensures { IfOk result (λ nodes. nodes.items ≡ sample_nodes) }
{
    let mut nodes = Vec::new(alloc);
    nodes.push(node(alloc, "n1")?)?;
    nodes.push(node(alloc, "n2")?)?;
    Ok(nodes)
}

impl Config {
    /// Makes the sample configuration:
    ///
    /// - the plugin `pools.example.org` in version 1.0.0
    /// - volumes of 1 MiB by default and 8 MiB at most
    /// - the pool `p1` of 10 MiB in zone `a`, and the pool `p2` of 4 MiB in zone `b`
    /// - the nodes `n1` and `n2`, for two volumes each
    ///
    /// # Errors
    ///
    /// If memory is refused.
    pub fn sample(alloc: Global) -> Result<Self, AllocError>
        ensures plugin { IfOk result (λ config. config.plugin ≡ sample_plugin) }
        ensures default { IfOk result (λ config. config.sizes.default_bytes ≡ 1_048_576) }
        ensures greatest { IfOk result (λ config. config.sizes.greatest_bytes ≡ 8_388_608) }
        ensures pools { IfOk result (λ config. config.pools ≡ sample_pools) }
        ensures nodes { IfOk result (λ config. config.nodes ≡ sample_nodes) }
    {
        let sizes = Sizes {
            default_bytes: 1_048_576,
            greatest_bytes: 8_388_608,
        };
        match Config::new(plugin(alloc)?, sizes, pools(alloc)?, nodes(alloc)?) {
            Ok(config) => Ok(config),
            Err(_) => unreachable!(),
        }
    }
}
