//! The name and the version of the plugin.

ghost use Rattle.std.specs.Prelude.{◌≡◌, None, OnOk, IfOk, IfErr, Some};
ghost use Rattle.std.specs.List.{list_all};
ghost use Rattle.csi_config.specs.Faults.{is_plugin_byte, is_plugin_name, plugin_fault};

use crate::fault::ConfigFault;
use csi_types::{MAX_TEXT_BYTES, Text};

/// The greatest length in bytes of the plugin's name and of a pool's name. The CSI specification,
/// 'GetPluginInfo', allows a plugin's name at most 63 characters, in the form of a domain name.
pub const MAX_NAME_BYTES: usize = 63;

const _: () = prove!(MAX_NAME_BYTES == 63);

/// The name and the version of the plugin (CSI specification, 'GetPluginInfo').
#[derive(Debug, Drop)]
pub struct Plugin {
    /// `GetPluginInfoResponse.name`: 1 to 63 ASCII letters, digits, `-` and `.`. The first and the last
    /// byte are a letter or digit.
    pub name: Text,
    /// `GetPluginInfoResponse.vendor_version`: 1 to 128 bytes.
    pub version: Text,
}

#[tactic(auto, unfolding(crate::specs::Faults::is_plugin_byte))]
fn is_plugin_byte(byte: u8) -> bool
    ensures { result ≡ is_plugin_byte byte }
{
    byte.is_ascii_alphanumeric() || byte == b'-' || byte == b'.'
}

fn are_plugin_bytes(name: &[u8]) -> bool
    ensures { result ≡ list_all is_plugin_byte name.now }
{
    name.iter().all(|byte| is_plugin_byte(*byte))
}

fn is_plugin_name(name: &[u8]) -> bool
    ensures { result ≡ is_plugin_name name.now }
{
    if name.is_empty() || name.len() > MAX_NAME_BYTES || !are_plugin_bytes(name) {
        return false;
    }
    name[0].is_ascii_alphanumeric() && name[name.len() - 1].is_ascii_alphanumeric()
}

/// Checks the name and the version of the plugin, and returns the plugin.
///
/// # Errors
///
/// Returns a fault if the name or the version is invalid. The name is checked first.
#[tactic(auto, unfolding(crate::specs::Faults::plugin_fault))]
pub(crate) fn check_plugin(plugin: Plugin) -> Result<Plugin, ConfigFault>
    ensures unchanged { IfOk result (λ same. same ≡ plugin) }
    ensures passed { OnOk result (plugin_fault plugin ≡ None) }
    ensures refused { IfErr result (λ fault. plugin_fault plugin ≡ Some fault) }
{
    if !is_plugin_name(plugin.name.as_bytes()) {
        return Err(ConfigFault::PluginName { name: plugin.name });
    }
    if plugin.version.is_empty() || plugin.version.len() > MAX_TEXT_BYTES {
        return Err(ConfigFault::PluginVersion);
    }
    Ok(plugin)
}
