//! The methods of the Identity service and the Controller service.

ghost use Rattle.std.specs.Prelude.{◌≡◌, ◌++◌, ◌↔◌, IfOk};
ghost use Rattle.csi_types.specs.Methods.{method_at, method_named, path_of};
ghost use Rattle.csi_types.specs.declared.method.Method.{Method};

use std::alloc::{AllocError, Global};

/// A method of the Identity or the Controller service (CSI specification, 'RPC Interface').
#[derive(Clone, Copy, Debug, PartialEq, Eq)]
pub enum Method {
    /// `csi.v1.Identity.GetPluginInfo`: returns the name and version of the plugin.
    GetPluginInfo,
    /// `csi.v1.Identity.GetPluginCapabilities`: returns which optional services the plugin has.
    GetPluginCapabilities,
    /// `csi.v1.Identity.Probe`: returns if the plugin is ready.
    Probe,
    /// `csi.v1.Controller.CreateVolume`: creates a volume, or returns the existing volume with the name.
    CreateVolume,
    /// `csi.v1.Controller.DeleteVolume`: deletes a volume that is published to no node. The call also
    /// succeeds if the volume does not exist.
    DeleteVolume,
    /// `csi.v1.Controller.ControllerPublishVolume`: publishes a volume to a node, with one capability.
    ControllerPublishVolume,
    /// `csi.v1.Controller.ControllerUnpublishVolume`: unpublishes a volume from one node or from all nodes.
    ControllerUnpublishVolume,
    /// `csi.v1.Controller.ValidateVolumeCapabilities`: confirms that a volume has the given capabilities and
    /// parameters, or says why not.
    ValidateVolumeCapabilities,
    /// `csi.v1.Controller.ListVolumes`: lists the volumes, page by page.
    ListVolumes,
    /// `csi.v1.Controller.GetCapacity`: returns the bytes that new volumes can take.
    GetCapacity,
    /// `csi.v1.Controller.ControllerGetCapabilities`: returns which optional methods the service has.
    ControllerGetCapabilities,
    /// `csi.v1.Controller.ControllerModifyVolume`: changes the mutable parameters of a volume.
    ControllerModifyVolume,
}

impl Method {
    /// Returns the path of the method's calls, such as `/csi.v1.Identity/Probe`.
    pub fn path(self) -> &'static str
        ensures { result.now ≡ path_of self }
    {
        match self {
            Method::GetPluginInfo => "/csi.v1.Identity/GetPluginInfo",
            Method::GetPluginCapabilities => "/csi.v1.Identity/GetPluginCapabilities",
            Method::Probe => "/csi.v1.Identity/Probe",
            Method::CreateVolume => "/csi.v1.Controller/CreateVolume",
            Method::DeleteVolume => "/csi.v1.Controller/DeleteVolume",
            Method::ControllerPublishVolume => "/csi.v1.Controller/ControllerPublishVolume",
            Method::ControllerUnpublishVolume => "/csi.v1.Controller/ControllerUnpublishVolume",
            Method::ValidateVolumeCapabilities => "/csi.v1.Controller/ValidateVolumeCapabilities",
            Method::ListVolumes => "/csi.v1.Controller/ListVolumes",
            Method::GetCapacity => "/csi.v1.Controller/GetCapacity",
            Method::ControllerGetCapabilities => "/csi.v1.Controller/ControllerGetCapabilities",
            Method::ControllerModifyVolume => "/csi.v1.Controller/ControllerModifyVolume",
        }
    }
}

/// Returns the method whose calls have this path, or `None` if there is no such method.
pub fn method_of(path: &[u8]) -> Option<Method>
    ensures at { result ≡ method_at path.now }
    ensures by_path { (method : Method) → (result ≡ Some method) ↔ (path.now ≡ path_of method) }
{
    let method = likely_method(path)?;
    (path == method.path().as_bytes()).then_some(method)
}

// Returns the method with this name in the service whose path begins with `service`, or `None` if the service
// has no such method.
fn method_under(alloc: Global, service: &str, name: &str) -> Result<Option<Method>, AllocError>
    ensures { IfOk result (λ method. method ≡ method_at (service.now ++ name.now)) }
{
    let path = format!(in alloc; "{service}{name}")?;
    Ok(method_of(path.as_bytes()))
}

/// Returns the method with this name, such as `CreateVolume`, or `None` if neither service has the method.
/// The Controller service is searched first, then the Identity service.
///
/// # Errors
///
/// If memory is refused.
pub fn method_named(alloc: Global, name: &str) -> Result<Option<Method>, AllocError>
    ensures { IfOk result (λ method. method ≡ method_named name.now) }
{
    match method_under(alloc, "/csi.v1.Controller/", name)? {
        Some(method) => Ok(Some(method)),
        None => method_under(alloc, "/csi.v1.Identity/", name),
    }
}

// Returns the only method that can have this path, or `None` if no method can. The length of the path and one
// byte of it are enough to find the method. The caller compares the other bytes.
fn likely_method(path: &[u8]) -> Option<Method>
    ensures { (method : Method) → path.now ≡ path_of method → result ≡ Some method }
{
    Some(match path.len() {
        22 => Method::Probe,
        30 => match path[19] {
            b'L' => Method::ListVolumes,
            b'G' => Method::GetCapacity,
            _ => Method::GetPluginInfo,
        },
        31 if path[19] == b'C' => Method::CreateVolume,
        31 => Method::DeleteVolume,
        38 => Method::GetPluginCapabilities,
        41 => Method::ControllerModifyVolume,
        42 => Method::ControllerPublishVolume,
        44 if path[29] == b'U' => Method::ControllerUnpublishVolume,
        44 => Method::ControllerGetCapabilities,
        45 => Method::ValidateVolumeCapabilities,
        _ => return None,
    })
}
