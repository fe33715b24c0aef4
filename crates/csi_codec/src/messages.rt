//! The messages of the Container Storage Interface (CSI specification, csi.proto), and how each of them is
//! decoded and encoded.

pub mod requests;
pub mod responses;
pub mod values;
pub mod volumes;

/// Marks the messages of the package `csi.v1`. The values of these messages are types of `csi_types`. This
/// crate can implement the traits of `pbmessage` for them only because `Csi`, a type of this crate, is the
/// parameter of the traits.
#[derive(Clone, Copy)]
pub struct Csi;
