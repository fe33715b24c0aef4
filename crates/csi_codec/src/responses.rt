//! Decodes and encodes responses, by their method.

ghost use Rattle.std.specs.Prelude.{◌≡◌, ◌++◌, OnOk, OnErr, IfOk, IfErr};
ghost use Rattle.pbmessage.specs.Kept.{Keeps};
ghost use Rattle.csi_codec.specs.Methods.{RefusesResponse, MeansResponse, response_bytes, FitsResponse};
ghost use Rattle.csi_codec.specs.Reading.{read_response, Decodes};

use crate::messages::responses::{
    FreeCapacity, Listing, PluginInfo, Validation, put_free_capacity, put_listing, put_plugin_info,
    put_validation,
};
use crate::messages::values::NoFields;
use csi_types::{Method, Response};
use pbmessage::{DecodeFault, Written, decode_message, whole_or_none};
use pbwire::laws::spelled;
use std::alloc::{AllocError, Global};

/// Decodes the response of this method. Fields may come in any order, and unknown fields are skipped. If a
/// number, a flag or a text occurs more than once, the last occurrence counts. An embedded message is merged
/// from all its occurrences. In a repeated field, each occurrence is one element. In a map, the last entry
/// with a key counts. Of the members of a oneof, the member that occurs last counts.
///
/// # Errors
///
/// [`DecodeFault::Malformed`] if and only if the bytes encode no response of this method.
/// [`DecodeFault::NoMemory`] if the bytes encode a response and memory is refused.
pub fn decode_response(alloc: Global, method: Method, bytes: &[u8]) -> Result<Response, DecodeFault>
    ensures ok { IfOk result (MeansResponse method bytes.now) }
    ensures err { IfErr result (RefusesResponse method bytes.now) }
    ensures exact { Decodes (read_response method bytes.now) result }
{
    spelled();
    decode_by_method(alloc, method, bytes)
}

#[tactic(auto, unfolding(crate::specs::Methods::MeansResponse, crate::specs::Methods::IsNoResponse, crate::specs::Methods::IsGoodResponse))]
fn decode_by_method(alloc: Global, method: Method, bytes: &[u8]) -> Result<Response, DecodeFault>
    ensures ok { IfOk result (MeansResponse method bytes.now) }
    ensures err { IfErr result (RefusesResponse method bytes.now) }
{
    match method {
        Method::GetPluginInfo => {
            let PluginInfo { name, version } = decode_message(alloc, bytes)?;
            Ok(Response::PluginInfo { name, version })
        }
        Method::GetPluginCapabilities => {
            Ok(Response::PluginCapabilities(decode_message(alloc, bytes)?))
        }
        Method::Probe => Ok(Response::Probe(decode_message(alloc, bytes)?)),
        Method::CreateVolume => Ok(Response::Create(decode_message(alloc, bytes)?)),
        Method::DeleteVolume => {
            let NoFields = decode_message(alloc, bytes)?;
            Ok(Response::Delete)
        }
        Method::ControllerPublishVolume => Ok(Response::Publish(decode_message(alloc, bytes)?)),
        Method::ControllerUnpublishVolume => {
            let NoFields = decode_message(alloc, bytes)?;
            Ok(Response::Unpublish)
        }
        Method::ValidateVolumeCapabilities => {
            let Validation { confirmed, message } = decode_message(alloc, bytes)?;
            Ok(Response::Validate { confirmed, message })
        }
        Method::ListVolumes => {
            let Listing { entries, token } = decode_message(alloc, bytes)?;
            Ok(Response::List { entries, token })
        }
        Method::GetCapacity => {
            let FreeCapacity { available, maximum } = decode_message(alloc, bytes)?;
            Ok(Response::Capacity { available, maximum })
        }
        Method::ControllerGetCapabilities => {
            Ok(Response::ControllerCapabilities(decode_message(alloc, bytes)?))
        }
        Method::ControllerModifyVolume => {
            let NoFields = decode_message(alloc, bytes)?;
            Ok(Response::Modify)
        }
    }
}

// Appends the encoding of the response. If memory is refused, a part of the encoding may have been appended.
#[tactic(auto, unfolding(crate::specs::Methods::response_bytes, crate::specs::Methods::FitsResponse))]
fn write_response(response: &Response, out: &mut Vec<u8>) -> Result<(), AllocError>
    ensures ok { OnOk result (out.new.items ≡ out.old.items ++ response_bytes response.now) }
    ensures fitting { OnOk result (FitsResponse response.now) }
    ensures kept { Keeps out.old.items out.new.items }
{
    match response {
        Response::PluginInfo { name, version } => put_plugin_info(out, name, version),
        Response::PluginCapabilities(types) | Response::ControllerCapabilities(types) => {
            types.write(out)
        }
        Response::Probe(ready) => ready.write(out),
        Response::Create(volume) => volume.write(out),
        Response::Delete | Response::Unpublish | Response::Modify => Ok(()),
        Response::Publish(context) => context.write(out),
        Response::Validate { confirmed, message } => put_validation(out, confirmed, message),
        Response::List { entries, token } => put_listing(out, entries, token),
        Response::Capacity { available, maximum } => put_free_capacity(out, *available, maximum),
    }
}

/// Appends the encoding of the response, in one fixed form. Field numbers rise, and map entries come in byte
/// order of their keys. A number that is 0, a flag that is false and an empty text are left out. The doc of
/// [`encode_request`](crate::encode_request) has all rules of this form.
///
/// # Errors
///
/// If memory is refused. The vector is unchanged.
pub fn encode_response(response: &Response, out: &mut Vec<u8>) -> Result<(), AllocError>
    ensures ok { OnOk result (out.new.items ≡ out.old.items ++ response_bytes response.now) }
    ensures fitting { OnOk result (FitsResponse response.now) }
    ensures err { OnErr result (out.new.items ≡ out.old.items) }
{
    let from = out.len();
    let written = write_response(response, out);
    whole_or_none(out, from, written)
}
