//! The response of ControllerPublishVolume, encoded from borrowed parts.

ghost use Rattle.std.specs.Prelude.{◌≡◌, ◌++◌, OnOk, OnErr};
ghost use Rattle.std.specs.FinMap.{empty, insert};
ghost use Rattle.csi_types.specs.declared.responses.Response.TheVariants as response;
ghost use Rattle.pbmessage.specs.Kept.{Keeps};
ghost use Rattle.csi_codec.specs.Methods.{response_bytes, FitsResponse};

use pbmessage::{put_single, whole_or_none};
use std::alloc::AllocError;

/// Appends the encoded response of ControllerPublishVolume whose `publish_context` has one entry, this key
/// and value (CSI specification, `ControllerPublishVolumeResponse`).
///
/// # Errors
///
/// If memory is refused. The vector is unchanged.
#[tactic(auto, unfolding(pbmessage::specs::Canon::row_fields, crate::specs::Methods::response_bytes, crate::specs::Methods::FitsResponse))]
pub fn encode_published(key: &str, value: &str, out: &mut Vec<u8>) -> Result<(), AllocError>
    ensures ok { OnOk result (out.new.items
        ≡ out.old.items ++ response_bytes (response.Publish (insert empty key.now value.now))) }
    ensures fitting { OnOk result (FitsResponse (response.Publish (insert empty key.now value.now))) }
    ensures err { OnErr result (out.new.items ≡ out.old.items) }
    ensures kept { Keeps out.old.items out.new.items }
{
    let from = out.len();
    let written = put_single(out, 1, key, value);
    whole_or_none(out, from, written)
}
