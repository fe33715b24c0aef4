//! The outcome of CreateVolume, whose response is encoded from the volume, without a copy.

ghost use Rattle.std.specs.Prelude.{Some};
ghost use Rattle.csi_types.specs.declared.responses.Response.TheVariants as response;
ghost use Rattle.csi_codec.specs.Methods.{response_bytes};
ghost use Rattle.csi_machine.specs.Creation.{plan_of};
ghost use Rattle.csi_rules.specs.Info.{info_at};
ghost use Rattle.csi_machine.specs.Verdicts.{within, Appended, IsReported};

use crate::body::{Verdict, limit_body};
use crate::outcome::Outcome;
use csi_codec::{CreatedVolume, encode_created};
use csi_keeper::{Change, Keeper, StoreFault, Volume};
use csi_rules::{CONTEXT_KEY, ID_PREFIX, signed};
use csi_types::{Map, Reason};
use itoa::Buffer;
use std::alloc::{AllocError, Global};

/// The outcome of CreateVolume: a refusal, or a volume together with the segments of the volume's pool.
#[derive(Drop)]
pub(crate) enum Creation<'a> {
    /// The request is refused for this reason, and nothing changes.
    Refused(Reason),
    /// A volume with this name exists and is compatible with the request.
    Existing(Volume, &'a Map),
    /// The volume is new, and the change will add it.
    Made(Volume, &'a Map),
}

// Appends the response with this volume, whose pool has these segments. Refuses a response that is too large
// for a reply.
fn append_created(volume: &Volume, segments: &Map, out: &mut Vec<u8>) -> Result<Verdict, AllocError>
    ensures appended { Appended out.old.items out.new.items result }
    ensures reported { IsReported (within (response_bytes
        (response.Create (Some (info_at segments.now volume.now))))) out.old.items out.new.items result }
{
    let from = out.len();
    let mut buffer = Buffer::new();
    let created = CreatedVolume {
        bytes: signed(volume.bytes),
        prefix: ID_PREFIX,
        suffix: buffer.format(volume.number),
        key: CONTEXT_KEY,
        value: volume.pool.as_str(),
        segments,
    };
    encode_created(&created, out)?;
    Ok(limit_body(out, from))
}

impl Outcome for Creation<'_> {
    ghost plan = { plan_of };

    #[inline(always)]
    fn append(&self, out: &mut Vec<u8>) -> Result<Verdict, AllocError> {
        match self {
            Creation::Refused(reason) => Ok(Verdict::Refused(*reason)),
            Creation::Existing(volume, segments) | Creation::Made(volume, segments) => {
                append_created(volume, segments, out)
            }
        }
    }

    #[inline(always)]
    fn carry_out<K: Keeper>(self, alloc: Global, keeper: &mut K) -> Result<Verdict, StoreFault> {
        match self {
            Creation::Refused(reason) => Ok(Verdict::Refused(reason)),
            Creation::Existing(..) => Ok(Verdict::Done),
            Creation::Made(volume, _) => {
                keeper.apply_owned(alloc, Change::AddVolume(volume))?;
                Ok(Verdict::Done)
            }
        }
    }
}
