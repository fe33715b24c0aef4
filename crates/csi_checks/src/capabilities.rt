//! The checks of the capabilities in a request.

ghost use Rattle.std.specs.Prelude.{◌≡◌, not};
ghost use Rattle.std.specs.List.{list_any};
ghost use Rattle.csi_types.specs.Checks.{is_missing, is_known_mode, is_supported, is_long_access};

use crate::measures::{bytes_of_texts, is_long_text};
use csi_types::{Access, Capability, MAX_MOUNT_FLAGS_BYTES, is_known_mode, is_supported};

/// Returns true if a capability of the list has neither `block` nor `mount`.
pub(crate) fn has_missing_access(capabilities: &[Capability]) -> bool
    ensures { result ≡ list_any (λ c. is_missing c.access) capabilities.now }
{
    capabilities
        .iter()
        .any(|capability| matches!(capability.access, Access::Missing))
}

/// Returns true if a capability of the list has no access mode, or an unknown access mode.
pub(crate) fn has_unknown_mode(capabilities: &[Capability]) -> bool
    ensures { result ≡ list_any (λ c. not (is_known_mode c.mode)) capabilities.now }
{
    capabilities
        .iter()
        .any(|capability| !is_known_mode(capability.mode))
}

/// Returns true if no volume can have one of the capabilities (`csi_types::is_supported`).
pub(crate) fn has_unsupported(capabilities: &[Capability]) -> bool
    ensures { result ≡ list_any (λ c. not (is_supported c)) capabilities.now }
{
    capabilities
        .iter()
        .any(|capability| !is_supported(capability))
}

/// Returns true if a mount in the list has a file system type or a mount group of more than 128 bytes, or
/// flags that have more than 4,096 bytes together.
pub(crate) fn has_long_text(capabilities: &[Capability]) -> bool
    ensures { result ≡ list_any (λ c. is_long_access c.access) capabilities.now }
{
    capabilities
        .iter()
        .any(|capability| is_long_access(&capability.access))
}

fn is_long_access(access: &Access) -> bool
    ensures { result ≡ is_long_access access.now }
{
    match access {
        Access::Missing | Access::Block => false,
        Access::Mount(mount) => {
            let mount = mount.get();
            is_long_text(&mount.fs_type)
                || is_long_text(&mount.group)
                || bytes_of_texts(&mount.flags) > MAX_MOUNT_FLAGS_BYTES
        }
    }
}
