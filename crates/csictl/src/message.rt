//! Makes the frame of the call that the arguments describe.

use crate::failure::Failure;
use crate::fields::{FieldFault, Fields, give_none};
use crate::reply::Listing;
use clap::ArgMatches;
use csi_client::put_call;
use csi_codec::encode_request;
use csi_types::{
    Boxed, CreateVolume, DeleteVolume, GetCapacity, ListVolumes, Method, Modify, Publish, Request,
    Text, Unpublish, Validate, copy_text, method_named,
};
use envelope::MAX_MESSAGE_BYTES;
use hex::FromHexError;
use std::alloc::{AllocError, Global};

/// The greatest number of pages that are read. No server has enough volumes for more pages, so a listing with
/// more pages has no end.
pub(crate) const MOST_PAGES: u32 = 1_000_000;

fn create(fields: &Fields<'_, '_>) -> Result<CreateVolume, FieldFault> {
    Ok(CreateVolume {
        name: fields.text("name")?,
        range: fields.range(),
        parameters: fields.map("parameters")?,
        mutable: fields.map("mutable")?,
        secrets: fields.no_map(),
        source: false,
        capabilities: fields.capabilities()?,
        topology: fields.requirement()?,
    })
}

fn delete(fields: &Fields<'_, '_>) -> Result<DeleteVolume, FieldFault> {
    Ok(DeleteVolume {
        volume_id: fields.text("volume")?,
        secrets: fields.no_map(),
    })
}

fn publish(fields: &Fields<'_, '_>) -> Result<Publish, FieldFault> {
    Ok(Publish {
        volume_id: fields.text("volume")?,
        node_id: fields.text("node")?,
        capability: fields.capability()?,
        readonly: fields.readonly(),
        secrets: fields.no_map(),
        context: fields.no_map(),
    })
}

fn unpublish(fields: &Fields<'_, '_>) -> Result<Unpublish, FieldFault> {
    Ok(Unpublish {
        volume_id: fields.text("volume")?,
        node_id: fields.text("node")?,
        secrets: fields.no_map(),
    })
}

fn modify(fields: &Fields<'_, '_>) -> Result<Modify, FieldFault> {
    Ok(Modify {
        volume_id: fields.text("volume")?,
        secrets: fields.no_map(),
        mutable: fields.map("mutable")?,
    })
}

fn list(fields: &Fields<'_, '_>) -> Result<ListVolumes, FieldFault> {
    Ok(ListVolumes {
        max_entries: fields.max(),
        token: fields.text("token")?,
    })
}

fn capacity(fields: &Fields<'_, '_>) -> Result<GetCapacity, FieldFault> {
    Ok(GetCapacity {
        capabilities: fields.capabilities()?,
        parameters: fields.map("parameters")?,
        topology: fields.pairs("topology")?,
    })
}

fn validate(fields: &Fields<'_, '_>) -> Result<Validate, FieldFault> {
    Ok(Validate {
        volume_id: fields.text("volume")?,
        context: fields.no_map(),
        capabilities: fields.capabilities()?,
        parameters: fields.map("parameters")?,
        secrets: fields.no_map(),
    })
}

// Boxes the message of a request, or returns the fault.
fn boxed<M: Drop>(alloc: Global, message: Result<M, FieldFault>) -> Result<Boxed<M>, FieldFault> {
    Ok(Boxed::new(alloc, message?)?)
}

// Makes the request of the method with these fields.
fn request(alloc: Global, method: Method, fields: &Fields<'_, '_>) -> Result<Request, FieldFault> {
    Ok(match method {
        Method::GetPluginInfo => Request::PluginInfo,
        Method::GetPluginCapabilities => Request::PluginCapabilities,
        Method::Probe => Request::Probe,
        Method::ControllerGetCapabilities => Request::ControllerCapabilities,
        Method::CreateVolume => Request::Create(boxed(alloc, create(fields))?),
        Method::DeleteVolume => Request::Delete(boxed(alloc, delete(fields))?),
        Method::ControllerPublishVolume => Request::Publish(boxed(alloc, publish(fields))?),
        Method::ControllerUnpublishVolume => {
            Request::Unpublish(boxed(alloc, unpublish(fields))?)
        }
        Method::ValidateVolumeCapabilities => { Request::Validate(boxed(alloc, validate(fields))?) }
        Method::ControllerModifyVolume => Request::Modify(boxed(alloc, modify(fields))?),
        Method::ListVolumes => Request::List(boxed(alloc, list(fields))?),
        Method::GetCapacity => Request::Capacity(boxed(alloc, capacity(fields))?),
    })
}

fn encoded(alloc: Global, request: &Request) -> Result<Vec<u8>, AllocError> {
    let mut bytes = Vec::new(alloc);
    encode_request(request, &mut bytes)?;
    Ok(bytes)
}

// Encodes the request of the method with these fields.
fn message_of(
    alloc: Global,
    method: Method,
    fields: &Fields<'_, '_>,
) -> Result<Vec<u8>, FieldFault> {
    let request = request(alloc, method, fields)?;
    Ok(encoded(alloc, &request)?)
}

// Encodes the request whose fields are in the arguments.
fn message_of_fields(
    alloc: Global,
    method: Method,
    arguments: &ArgMatches<'_>,
) -> Result<Vec<u8>, Failure> {
    let fields = Fields::new(alloc, method, arguments)?;
    Ok(message_of(alloc, method, &fields)?)
}

// Decodes the message that is given in hexadecimal digits.
fn message_as_it_is(alloc: Global, digits: &str) -> Result<Vec<u8>, Failure> {
    match hex::decode(alloc, digits) {
        Ok(bytes) => Ok(bytes),
        Err(FromHexError::OutOfMemory) => Err(Failure::NoMemory),
        Err(_) => Err(Failure::NotHex),
    }
}

// Returns the message of the call, from `--message` or from the options for its fields.
fn message(alloc: Global, method: Method, arguments: &ArgMatches<'_>) -> Result<Vec<u8>, Failure> {
    match arguments.get_str("message") {
        Some(digits) => {
            give_none(arguments)?;
            message_as_it_is(alloc, digits)
        }
        None => message_of_fields(alloc, method, arguments),
    }
}

/// Returns the method with this name, such as `CreateVolume`.
///
/// # Errors
///
/// [`Failure::NoMethod`] if no method has the name, or [`Failure::NoMemory`] if memory is refused.
pub(crate) fn method(alloc: Global, name: &str) -> Result<Method, Failure> {
    match method_named(alloc, name)? {
        Some(method) => Ok(method),
        None => Err(Failure::NoMethod(String::from_str(alloc, name)?)),
    }
}

// Makes the frame of a call with this method and message.
fn framed(alloc: Global, method: Method, message: &[u8]) -> Result<Vec<u8>, Failure> {
    if message.len() > MAX_MESSAGE_BYTES {
        return Err(Failure::TooLong);
    }
    let mut frame = Vec::new(alloc);
    put_call(&mut frame, method, message)?;
    Ok(frame)
}

/// Makes the frame of a call of the method, with the message that the arguments describe.
///
/// # Errors
///
/// If the arguments do not describe a message, the message has more than 1,048,576 bytes, or memory is
/// refused.
pub(crate) fn frame(
    alloc: Global,
    method: Method,
    arguments: &ArgMatches<'_>,
) -> Result<Vec<u8>, Failure> {
    let message = message(alloc, method, arguments)?;
    framed(alloc, method, &message)
}

/// Makes the frame of a call of the method, with the fields in the arguments of a command for people.
///
/// # Errors
///
/// If the arguments do not describe a message, the message has more than 1,048,576 bytes, or memory is
/// refused.
pub(crate) fn frame_of_person(
    alloc: Global,
    method: Method,
    arguments: &ArgMatches<'_>,
) -> Result<Vec<u8>, Failure> {
    let fields = Fields::of_person(alloc, arguments)?;
    let message = message_of(alloc, method, &fields)?;
    framed(alloc, method, &message)
}

/// Makes the frame of a call with an empty message, for a method whose request has no fields.
///
/// # Errors
///
/// If memory is refused.
pub(crate) fn call_without_fields(alloc: Global, method: Method) -> Result<Vec<u8>, Failure> {
    framed(alloc, method, &[])
}

/// Checks that `--all` can be used: the method is ListVolumes, and `--message` is not given.
///
/// # Errors
///
/// Returns [`Failure::NotPaged`] or [`Failure::WithMessage`] otherwise.
pub(crate) fn check_paged(method: Method, arguments: &ArgMatches<'_>) -> Result<(), Failure> {
    if method != Method::ListVolumes {
        return Err(Failure::NotPaged);
    }
    if arguments.get_str("message").is_some() {
        return Err(Failure::WithMessage("all"));
    }
    Ok(())
}

/// Makes an empty listing that begins at the token in `--token`, or with the first volume without the option.
///
/// # Errors
///
/// If memory is refused.
pub(crate) fn first_page(alloc: Global, arguments: &ArgMatches<'_>) -> Result<Listing, AllocError> {
    let token = arguments.get_str("token").unwrap_or("");
    Ok(Listing::new(alloc, copy_text(alloc, token)?))
}

fn page_request(alloc: Global, max_entries: i32, token: &Text) -> Result<Request, AllocError> {
    let request = ListVolumes {
        max_entries,
        token: copy_text(alloc, token.as_str())?,
    };
    Ok(Request::List(Boxed::new(alloc, request)?))
}

/// Makes the frame of the call for the page after a token, or for the first page if the token is empty, with
/// at most `max_entries` entries. If `max_entries` is 0, the server chooses the number.
///
/// # Errors
///
/// If the message would have more than 1,048,576 bytes because of a long token, or memory is refused.
pub(crate) fn page(alloc: Global, max_entries: i32, token: &Text) -> Result<Vec<u8>, Failure> {
    let request = page_request(alloc, max_entries, token)?;
    let message = encoded(alloc, &request)?;
    framed(alloc, Method::ListVolumes, &message)
}
