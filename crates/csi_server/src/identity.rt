//! A server that answers only two calls of the Identity service: Probe and GetPluginInfo.

ghost use Rattle.std.specs.Prelude.{◌≡◌, ◌≤◌, ℕ, false, List, length, None, Ok, IfOk};
ghost use Rattle.std.specs.Io.KnownBytes.{Consumes, IsAtEnd, Keeps};
ghost use Rattle.csi_types.specs.declared.requests.Request.{Request as AnyRequest};
ghost use Rattle.csi_types.specs.Methods.{method_at};
ghost use Rattle.csi_codec.specs.Reading.{read_request};
ghost use Rattle.csi_machine.specs.Verdicts.{reported_of, Appended, IsReported};
ghost use Rattle.csi_server.specs.Identity.{said, known, outcome_of, identity, still};
ghost use Rattle.csi_server.specs.Requests.{after_check, after_read, AnswersBy, MayBe};
ghost use Rattle.csi_server.specs.Serving.{Ended, Writes};
ghost use Rattle.csi_server.specs.Service.{reply_of, HoldsBody, room};

use crate::end::RunEnd;
use crate::message::{read_message, refuse};
use crate::refused::CallResult;
use crate::running::run_service;
use crate::service::{Service, begin_body};
use csi_machine::{Verdict, append_body};
use csi_types::{Method, Reason, Request, Response, Text, method_of};
use envelope::Call;
use std::alloc::{AllocError, Global};
use std::io::{Read, Write};

// The name and version that GetPluginInfo returns.
#[derive(Drop)]
struct PluginNames<'a> {
    name: &'a str,
    version: &'a str,
}

// A service without a state: it keeps nothing from one call to the next.
#[derive(Drop)]
struct Identity {}

// Makes the response to Probe or GetPluginInfo. Returns `None` for any other request.
#[tactic(auto, unfolding(crate::specs::Identity::said))]
fn respond(
    alloc: Global,
    names: &PluginNames<'_>,
    request: &Request,
) -> Result<Option<Response>, AllocError>
    ensures { IfOk result (λ o. said names.now.name.now names.now.version.now request.now ≡ outcome_of o) }
{
    match request {
        Request::Probe => Ok(Some(Response::Probe(Some(true)))),
        Request::PluginInfo => Ok(Some(Response::PluginInfo {
            name: Text::from_str(alloc, names.name)?,
            version: Text::from_str(alloc, names.version)?,
        })),
        _ => Ok(None),
    }
}

// Clears the buffer, and appends room for the head of a reply and then the response to a request. A request
// other than Probe and GetPluginInfo is refused.
fn put_response(
    alloc: Global,
    names: &PluginNames<'_>,
    request: &Request,
    reply: &mut Vec<u8>,
) -> Result<Verdict, AllocError>
    ensures appended { IfOk result (λ v. Appended room reply.new.items result) }
    ensures reported { IfOk result (λ v. IsReported
        (reported_of (said names.now.name.now names.now.version.now request.now))
        room reply.new.items result) }
{
    begin_body(reply)?;
    match respond(alloc, names, request)? {
        Some(response) => append_body(&response, reply),
        None => Ok(Verdict::Refused(Reason::UnknownMethod)),
    }
}

// Answers a Probe or GetPluginInfo request.
fn answer_request(
    alloc: Global,
    names: &PluginNames<'_>,
    request: &Request,
    reply: &mut Vec<u8>,
) -> CallResult
    ensures step { AnswersBy (λ t. after_check
        (λ s r. (reported_of (said names.now.name.now names.now.version.now r), s)) t request.now None)
        (MayBe false) still still tt
        (reply_of result reply.new.items) }
    ensures room { HoldsBody result reply.new.items }
{
    match put_response(alloc, names, request, reply) {
        Ok(Verdict::Done) => Ok(()),
        Ok(Verdict::Refused(reason)) => refuse(reason),
        Err(_) => refuse(Reason::OutOfMemory),
    }
}

// Decodes the message of a Probe or GetPluginInfo call, and answers the call.
fn answer_message(
    alloc: Global,
    names: &PluginNames<'_>,
    method: Method,
    message: &[u8],
    reply: &mut Vec<u8>,
) -> CallResult
    ensures step { AnswersBy (λ t. after_read
        (λ s r. (reported_of (said names.now.name.now names.now.version.now r), s)) t
        (read_request method message.now))
        (λ mark. (r : AnyRequest) × (read_request method message.now ≡ Ok r)
        × MayBe false mark) still still tt (reply_of result reply.new.items) }
    ensures room { HoldsBody result reply.new.items }
{
    match read_message(alloc, method, message) {
        Ok(request) => answer_request(alloc, names, &request, reply),
        Err(refusal) => Err(refusal),
    }
}

// Returns the method with this path if it is Probe or GetPluginInfo, otherwise `None`.
fn known_method(path: &[u8]) -> Option<Method>
    ensures { result ≡ known (method_at path.now) }
{
    match method_of(path) {
        Some(Method::Probe) => Some(Method::Probe),
        Some(Method::GetPluginInfo) => Some(Method::GetPluginInfo),
        _ => None,
    }
}

impl<'a> Service<PluginNames<'a>> for Identity {
    ghost use Rattle.std.specs.Prelude.{⊤};

    ghost State = { ⊤ };

    ghost machine = { λ c. identity c.name.now c.version.now };

    ghost model = { λ c i. still };

    fn answer(
        &mut self,
        config: &PluginNames<'a>,
        alloc: Global,
        call: &Call<'_>,
        reply: &mut Vec<u8>,
    ) -> CallResult {
        match known_method(call.path) {
            Some(method) => answer_message(alloc, config, method, call.message, reply),
            None => refuse(Reason::UnknownMethod),
        }
    }
}

/// Serves the two calls that identify a plugin: Probe, whose response is that the plugin is ready, and
/// GetPluginInfo (CSI specification, 'Identity Service RPC'). A call with any other path is refused with
/// status 12 and the text `unknown method`.
///
/// The name and the version must have at most 128 bytes each. If one of them is empty, the response leaves it
/// out. A message that is not a list of fields is refused with status 3 and the text `malformed message in
/// the field at byte N`. If memory for a body is refused, the call is refused with status 13 and the text
/// `out of memory`.
pub fn serve_identity<R: Read, W: Write>(
    alloc: Global,
    name: &str,
    version: &str,
    reader: &mut R,
    writer: &mut W,
) -> RunEnd
    requires short { (length name.now ≤ 128) × (length version.now ≤ 128) }
    ensures serves { (read : List ℕ) × Consumes (R.remaining reader.old) (R.remaining reader.new) read
        × Ended (identity name.now version.now) still still tt read (IsAtEnd (R.remaining reader.new))
        (W.contents writer.old) (W.contents writer.new) result }
    ensures writes { Writes (R.remaining reader.old) (R.remaining reader.new) (W.contents writer.old)
        (W.contents writer.new) result }
    ensures unread { result ≡ RunEnd.NoMemory → Keeps (R.remaining reader.old) (R.remaining reader.new) }
    ensures unwritten { result ≡ RunEnd.NoMemory → Keeps (W.contents writer.old) (W.contents writer.new) }
{
    let names = PluginNames { name, version };
    let mut service = Identity {};
    run_service(alloc, &names, &mut service, reader, writer)
}
