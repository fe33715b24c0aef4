//! Reads the first frame of a call from all of the remaining input.

ghost use Rattle.envelope.specs.Taken.{BeginsWith, TakesFirst};

use crate::call::Call;
use crate::fault::{Fault, FrameFault};
use crate::head::{Look, call_of, look_at};
use crate::kind::Part;

/// The result of [`take_frame`] for the remaining input.
#[derive(Clone, Copy, Debug)]
pub enum Taken<'a> {
    /// The remaining input is empty.
    Nothing,
    /// A call, and the length of its frame in bytes.
    Frame(Call<'a>, usize),
    /// The bytes do not begin with a frame. The place of the fault is counted from the first of these bytes.
    Fault(FrameFault),
}

/// Reads the first frame of the bytes, or finds the fault of bytes that do not begin with a frame.
///
/// The bytes must be all of the remaining input, since an incomplete frame is the fault `EndOfInput`. The
/// function does not allocate and does not read the message.
pub fn take_frame(bytes: &[u8]) -> Taken<'_>
    ensures { TakesFirst bytes.now result }
{
    match first_frame(bytes) {
        Ok(None) => Taken::Nothing,
        Ok(Some(size)) => {
            let (prefix, _) = bytes.split_at(size);
            Taken::Frame(call_of(prefix), size)
        }
        Err(fault) => Taken::Fault(fault),
    }
}

/// Returns the length in bytes of the first frame, or `None` if there are no bytes. If the bytes do not begin
/// with a frame, the call fails and the error is the fault.
pub(crate) fn first_frame<F: Fault>(bytes: &[u8]) -> Result<Option<usize>, F>
    ensures { BeginsWith F.kind F.wrong_part F.place bytes.now result }
{
    if bytes.is_empty() {
        return Ok(None);
    }
    match look_at(F::kind(), bytes, 0) {
        Look::Whole(size) => Ok(Some(size)),
        Look::Broken(flaw, _) => Err(F::of(flaw.part, flaw.at as u64)),
        Look::Short => Err(F::of(Part::Missing, bytes.len() as u64)),
    }
}
