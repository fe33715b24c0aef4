//! Decodes and encodes requests, by their method.

ghost use Rattle.std.specs.Prelude.{◌≡◌, ◌++◌, OnOk, OnErr, IfOk, IfErr};
ghost use Rattle.pbmessage.specs.Kept.{Keeps};
ghost use Rattle.csi_codec.specs.Methods.{RefusesRequest, MeansRequest, request_bytes, FitsRequest};
ghost use Rattle.csi_codec.specs.Reading.{read_request, as_create, Decodes};
ghost use Rattle.csi_types.specs.declared.method.Method.TheVariants.{CreateVolume as Creating};

use crate::messages::Csi;
use crate::messages::values::NoFields;
use csi_types::{CreateVolume, Method, Request};
use pbmessage::{DecodeFault, Written, decode_boxed, decode_message, whole_or_none};
use pbwire::laws::spelled;
use std::alloc::{AllocError, Global};

/// Decodes the request of this method (Protocol Buffers encoding guide; CSI specification, csi.proto).
///
/// Fields may come in any order, and unknown fields are skipped. If a field occurs more than once, the result
/// depends on its kind. For a number, a flag or a text, the last occurrence counts. An embedded message is
/// merged from all occurrences. In a repeated field, each occurrence is one element. In a map, the last entry
/// with a key counts. Of the members of a oneof, the member that occurs last counts. All bytes are checked
/// for faults before memory is taken.
///
/// # Errors
///
/// [`DecodeFault::Malformed`] if and only if the bytes encode no request of this method.
/// [`DecodeFault::NoMemory`] if the bytes encode a request and memory is refused.
pub fn decode(alloc: Global, method: Method, bytes: &[u8]) -> Result<Request, DecodeFault>
    ensures ok { IfOk result (MeansRequest method bytes.now) }
    ensures err { IfErr result (RefusesRequest method bytes.now) }
    ensures exact { Decodes (read_request method bytes.now) result }
{
    spelled();
    decode_by_method(alloc, method, bytes)
}

/// Decodes a `CreateVolumeRequest`. The order of fields, unknown fields and fields that occur more than once
/// are treated as in [`decode`].
///
/// # Errors
///
/// [`DecodeFault::Malformed`] if and only if the bytes encode no `CreateVolumeRequest`.
/// [`DecodeFault::NoMemory`] if the bytes encode a request and memory is refused.
pub fn decode_create(alloc: Global, bytes: &[u8]) -> Result<CreateVolume, DecodeFault>
    ensures { Decodes (read_request Creating bytes.now) (as_create result) }
{
    spelled();
    decode_message::<Csi, CreateVolume>(alloc, bytes)
}

#[tactic(auto, unfolding(crate::specs::Methods::MeansRequest, crate::specs::Methods::IsNoRequest, crate::specs::Methods::IsGoodRequest))]
fn decode_by_method(alloc: Global, method: Method, bytes: &[u8]) -> Result<Request, DecodeFault>
    ensures ok { IfOk result (MeansRequest method bytes.now) }
    ensures err { IfErr result (RefusesRequest method bytes.now) }
{
    match method {
        Method::GetPluginInfo => {
            let NoFields = decode_message(alloc, bytes)?;
            Ok(Request::PluginInfo)
        }
        Method::GetPluginCapabilities => {
            let NoFields = decode_message(alloc, bytes)?;
            Ok(Request::PluginCapabilities)
        }
        Method::Probe => {
            let NoFields = decode_message(alloc, bytes)?;
            Ok(Request::Probe)
        }
        Method::CreateVolume => Ok(Request::Create(decode_boxed(alloc, bytes)?)),
        Method::DeleteVolume => Ok(Request::Delete(decode_boxed(alloc, bytes)?)),
        Method::ControllerPublishVolume => Ok(Request::Publish(decode_boxed(alloc, bytes)?)),
        Method::ControllerUnpublishVolume => Ok(Request::Unpublish(decode_boxed(alloc, bytes)?)),
        Method::ValidateVolumeCapabilities => Ok(Request::Validate(decode_boxed(alloc, bytes)?)),
        Method::ListVolumes => Ok(Request::List(decode_boxed(alloc, bytes)?)),
        Method::GetCapacity => Ok(Request::Capacity(decode_boxed(alloc, bytes)?)),
        Method::ControllerModifyVolume => Ok(Request::Modify(decode_boxed(alloc, bytes)?)),
        Method::ControllerGetCapabilities => {
            let NoFields = decode_message(alloc, bytes)?;
            Ok(Request::ControllerCapabilities)
        }
    }
}

// Appends the encoding of the request. If memory is refused, a part of the encoding may have been appended.
#[tactic(auto, unfolding(crate::specs::Methods::request_bytes, crate::specs::Methods::FitsRequest))]
fn write_request(request: &Request, out: &mut Vec<u8>) -> Result<(), AllocError>
    ensures ok { OnOk result (out.new.items ≡ out.old.items ++ request_bytes request.now) }
    ensures fitting { OnOk result (FitsRequest request.now) }
    ensures kept { Keeps out.old.items out.new.items }
{
    match request {
        Request::PluginInfo
        | Request::PluginCapabilities
        | Request::Probe
        | Request::ControllerCapabilities => Ok(()),
        Request::Create(message) => message.get().write(out),
        Request::Delete(message) => message.get().write(out),
        Request::Publish(message) => message.get().write(out),
        Request::Unpublish(message) => message.get().write(out),
        Request::Validate(message) => message.get().write(out),
        Request::List(message) => message.get().write(out),
        Request::Capacity(message) => message.get().write(out),
        Request::Modify(message) => message.get().write(out),
    }
}

/// Appends the encoding of the request, in one fixed form:
///
/// - Field numbers rise, and each varint has its least length.
/// - A number that is 0, a flag that is false and an empty text are left out. A message that is present, and
///   each element of a repeated field, is written even if it is empty.
/// - Map entries come in byte order of their keys, and both the key and the value are written.
///
/// # Errors
///
/// If memory is refused. The vector is unchanged.
pub fn encode_request(request: &Request, out: &mut Vec<u8>) -> Result<(), AllocError>
    ensures ok { OnOk result (out.new.items ≡ out.old.items ++ request_bytes request.now) }
    ensures fitting { OnOk result (FitsRequest request.now) }
    ensures err { OnErr result (out.new.items ≡ out.old.items) }
{
    let from = out.len();
    let written = write_request(request, out);
    whole_or_none(out, from, written)
}
