//! Compares the bytes that a server writes with the output of a vector.

ghost use Rattle.std.specs.Prelude.{◌≡◌, ◌≢◌, IfOk, IsTrue, List, ℕ, bytes_eq, false, not};
ghost use Rattle.csi_types.specs.declared.reason.Reason.TheVariants as reason;
ghost use Rattle.envelope.specs.Envelope.{reply_bytes_of};
ghost use Rattle.csi_server.specs.Machine.{refused};
ghost use Rattle.csi_vectors.specs.Judging.{IsUnrefused, IsWhole, IsWritten};

use crate::vector::Vector;
use csi_config::Config;
use csi_keeper::laws::first;
use csi_memory::MemKeeper;
use csi_server::{RunEnd, serve};
use csi_types::Reason;
use envelope::laws::reply_read_back;
use envelope::{Reply, TakenReply, take_reply};
use std::alloc::{AllocError, Global};

// The number that the first volume of the server gets.
const FIRST_NUMBER: u64 = 1;

// Returns true if the server answered the whole input, or all calls before a malformed frame.
fn is_whole(end: RunEnd) -> bool
    ensures true_only_if { IsTrue result → IsWhole end }
    ensures all { IsWhole end → IsTrue result }
{
    matches!(end, RunEnd::Done | RunEnd::Malformed(_))
}

// Returns the bytes that a new server writes for this input.
fn written(alloc: Global, config: &Config, input: &[u8]) -> Result<Vec<u8>, AllocError>
    ensures { IfOk result (λ bytes. IsWritten config.now false input.now bytes.items) }
{
    first(config);
    let mut keeper = MemKeeper::new(alloc, FIRST_NUMBER)?;
    let mut reader = input;
    let mut writer = Vec::new(alloc);
    // A server in memory fails only if memory is refused.
    if is_whole(serve(alloc, config, &mut keeper, &mut reader, &mut writer)) {
        Ok(writer)
    } else {
        Err(AllocError)
    }
}

// Returns true if a reply refuses its call because memory was refused.
fn is_refusal(reply: &Reply<'_>) -> bool
    ensures { result ≡ false → reply_bytes_of reply.now ≢ refused reason.OutOfMemory }
{
    let reason = Reason::OutOfMemory;
    reply.status == reason.code().number() && reply.text == reason.text().as_bytes()
}

// Returns true if one of the replies refuses its call because memory was refused.
fn has_refusal(replies: &[u8]) -> bool
    ensures { result ≡ false → IsUnrefused replies.now }
{
    reply_read_back();
    let mut rest = replies;
    loop {
        let TakenReply::Frame(reply, size) = take_reply(rest) else {
            return false;
        };
        if is_refusal(&reply) {
            return true;
        }
        let (_, more) = rest.split_at(size);
        rest = more;
    }
}

/// Returns true if a vector passes: a new server in memory, with this configuration and without volumes,
/// writes exactly the output of the vector for its input.
///
/// # Errors
///
/// If memory is refused. It is also an error if the server refuses a call of the vector for lack of memory,
/// and the output differs.
pub fn passes(alloc: Global, config: &Config, vector: &Vector<'_>) -> Result<bool, AllocError>
    ensures { IfOk result (λ ok. (bytes : List ℕ) × IsWritten config.now (not ok) vector.now.input.items bytes
        × (ok ≡ bytes_eq bytes vector.now.output.items)) }
{
    let bytes = written(alloc, config, &vector.input)?;
    let replies = bytes.as_slice();
    if replies == vector.output.as_slice() {
        return Ok(true);
    }
    if has_refusal(replies) {
        return Err(AllocError);
    }
    Ok(false)
}
