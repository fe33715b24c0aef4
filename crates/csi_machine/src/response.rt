//! The response in a plan, in a form that takes little memory.

ghost use Rattle.std.specs.Prelude.{◌≡◌, IfOk};
ghost use Rattle.csi_types.specs.declared.responses.Response.TheVariants as response;
ghost use Rattle.csi_codec.specs.Methods.{response_bytes};
ghost use Rattle.csi_machine.specs.Response.{flag_text, publication};
ghost use Rattle.csi_machine.specs.Verdicts.{within, Appended, IsReported};

use crate::body::{Verdict, append_body, limit_body};
use csi_codec::encode_published;
use csi_types::{Boxed, Response};
use std::alloc::{AllocError, Global};
use std::marker::Model;

// The form in which a plan keeps its response.
#[derive(Drop)]
enum ResponseForm {
    // The whole response, in allocated memory.
    Made(Boxed<Response>),
    // Each of these three responses has no field, so nothing is kept.
    Delete,
    Unpublish,
    Modify,
    // Only one flag of the response is kept: true if the publication is read-only.
    Published(bool),
}

// The only key of the `publish_context` of a publication.
const READONLY: &str = "readonly";

fn flag_text(flag: bool) -> &'static str
    ensures { result.now ≡ flag_text flag }
{
    if flag { "true" } else { "false" }
}

// Appends the response of ControllerPublishVolume. Refuses a response that is too large for a reply.
fn append_published(readonly: bool, out: &mut Vec<u8>) -> Result<Verdict, AllocError>
    ensures appended { Appended out.old.items out.new.items result }
    ensures reported { IsReported (within (response_bytes
        (response.Publish (publication readonly)))) out.old.items out.new.items result }
{
    let from = out.len();
    encode_published(READONLY, flag_text(readonly), out)?;
    Ok(limit_body(out, from))
}

/// A response of any method. The responses to DeleteVolume, ControllerPublishVolume,
/// ControllerUnpublishVolume and ControllerModifyVolume take no allocated memory.
#[derive(Drop)]
pub struct PlannedResponse {
    kept: ResponseForm,
}

impl Model for PlannedResponse {
    ghost use Rattle.csi_types.specs.declared.responses.Response.{Response as AnyResponse};
    ghost use Rattle.csi_machine.specs.Response.{form_response};
    ghost use Rattle.csi_types.specs.contracts.responses.Response as response;
    ghost use Rattle.std.specs.Coded.{codes};

    ghost Value = { AnyResponse };

    ghost coded = { Prim.hlevel (codes, response.the_row.coded) };

    ghost view = { λ a. form_response a.kept };
}

impl PlannedResponse {
    /// Makes the response of a plan from any response, which is moved into allocated memory.
    ///
    /// # Errors
    ///
    /// If memory is refused.
    #[inline(always)]
    pub fn of(alloc: Global, response: Response) -> Result<PlannedResponse, AllocError>
        ensures { IfOk result (λ answer. answer ≡ response) }
    {
        Ok(PlannedResponse {
            kept: ResponseForm::Made(Boxed::new(alloc, response)?),
        })
    }

    /// Returns `DeleteVolumeResponse`, which has no fields and takes no allocated memory.
    pub fn deleted() -> PlannedResponse
        ensures { result ≡ response.Delete }
    {
        PlannedResponse {
            kept: ResponseForm::Delete,
        }
    }

    /// Returns `ControllerModifyVolumeResponse`, which has no fields and takes no allocated memory.
    pub fn modified() -> PlannedResponse
        ensures { result ≡ response.Modify }
    {
        PlannedResponse {
            kept: ResponseForm::Modify,
        }
    }

    /// Returns `ControllerUnpublishVolumeResponse`, which has no fields and takes no allocated memory.
    pub fn unpublished() -> PlannedResponse
        ensures { result ≡ response.Unpublish }
    {
        PlannedResponse {
            kept: ResponseForm::Unpublish,
        }
    }

    /// Returns `ControllerPublishVolumeResponse`. Its `publish_context` has one entry: the key is `readonly`,
    /// and the value is `true` or `false`.
    pub fn published(readonly: bool) -> PlannedResponse
        ensures { result ≡ response.Publish (publication readonly) }
    {
        PlannedResponse {
            kept: ResponseForm::Published(readonly),
        }
    }

    /// Appends the body of the response to `out`. A body of more than [`MAX_BODY_BYTES`] is refused with
    /// [`Reason::ReplyTooLarge`], and `out` is unchanged.
    ///
    /// # Errors
    ///
    /// If memory is refused. `out` is unchanged.
    pub fn append(&self, out: &mut Vec<u8>) -> Result<Verdict, AllocError>
        ensures appended { Appended out.old.items out.new.items result }
        ensures reported { IsReported (within (response_bytes self.now)) out.old.items out.new.items result }
    {
        match &self.kept {
            ResponseForm::Made(response) => append_body(response.get(), out),
            ResponseForm::Delete => append_body(&Response::Delete, out),
            ResponseForm::Unpublish => append_body(&Response::Unpublish, out),
            ResponseForm::Modify => append_body(&Response::Modify, out),
            ResponseForm::Published(readonly) => append_published(*readonly, out),
        }
    }
}
