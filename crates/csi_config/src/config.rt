//! The type of configurations that have no fault.

ghost use Rattle.std.specs.Prelude.{◌≡◌, IfOk, IfErr, OnOk, Some, None};
ghost use Rattle.csi_config.specs.Faults.{fault_of};

use crate::fault::ConfigFault;
use crate::nodes::{Node, check_ids, check_volumes};
use crate::plugin::{Plugin, check_plugin};
use crate::pools::{Pool, check_bytes, check_names, check_segments};
use crate::sizes::{Sizes, check_sizes};
use csi_types::Items;

/// A configuration that has none of the faults of [`ConfigFault`]. [`Config::new`] checks the parts and makes
/// a configuration. Code that proves that the parts have no fault can make one directly.
#[derive(Debug)]
pub struct Config {
    /// The name and the version that GetPluginInfo returns.
    pub plugin: Plugin,
    /// The default size and the greatest size of a volume, in bytes.
    pub sizes: Sizes,
    /// The pools, at least 1 and at most 16. A new volume tries them in this order.
    pub pools: Items<Pool>,
    /// The nodes that volumes can be published to, at most 64.
    pub nodes: Items<Node>,
    ghost faultless: { fault_of plugin sizes pools nodes ≡ None },
}

// Written by hand and not derived. So a proof about code that drops a configuration has one call of `drop`,
// and no branch for each part.
impl Drop for Config {
    #[inline(always)]
    fn drop(self) {
        let Config {
            plugin: _plugin,
            sizes: _,
            pools: _pools,
            nodes: _nodes,
        } = self;
    }
}

impl Config {
    /// Makes a configuration of these parts, if they have no fault. The call takes no memory.
    ///
    /// # Errors
    ///
    /// Returns the first fault, in the order of docs/OPERATING.md, 'Configuration'. The parts are then
    /// dropped.
    pub fn new(
        plugin: Plugin,
        sizes: Sizes,
        pools: Vec<Pool>,
        nodes: Vec<Node>,
    ) -> Result<Self, ConfigFault>
        ensures plugin { IfOk result (λ config. config.plugin ≡ plugin) }
        ensures sizes { IfOk result (λ config. config.sizes ≡ sizes) }
        ensures pools { IfOk result (λ config. config.pools ≡ pools.items) }
        ensures nodes { IfOk result (λ config. config.nodes ≡ nodes.items) }
        ensures faultless { OnOk result (fault_of plugin sizes pools.items nodes.items ≡ None) }
        ensures fault { IfErr result (λ fault. fault_of plugin sizes pools.items nodes.items ≡ Some fault) }
    {
        let plugin = check_plugin(plugin)?;
        check_sizes(&sizes)?;
        let pools = check_segments(check_bytes(check_names(pools)?)?)?;
        let nodes = check_volumes(check_ids(nodes)?)?;
        Ok(Config {
            plugin,
            sizes,
            pools: Items::from_vec(pools),
            nodes: Items::from_vec(nodes),
        })
    }

    /// Returns the plugin: the name and the version that GetPluginInfo returns.
    pub fn plugin(&self) -> &Plugin
        ensures { result.now ≡ self.now.plugin }
    {
        &self.plugin
    }

    /// Returns the default size and the greatest size of a volume, in bytes.
    pub fn sizes(&self) -> &Sizes
        ensures { result.now ≡ self.now.sizes }
    {
        &self.sizes
    }

    /// Returns the pools, at least 1 and at most 16. A new volume tries them in this order.
    pub fn pools(&self) -> &[Pool]
        ensures { result.now ≡ self.now.pools }
    {
        self.pools.as_slice()
    }

    /// Returns the nodes, at most 64, in the order of the configuration.
    pub fn nodes(&self) -> &[Node]
        ensures { result.now ≡ self.now.nodes }
    {
        self.nodes.as_slice()
    }
}
