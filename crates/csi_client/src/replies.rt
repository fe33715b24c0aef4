//! Writes a reply as one line, and its decoded body as further lines.

ghost use Rattle.std.specs.Prelude.{◌≡◌, ◌≢◌, ◌++◌, ℕ, IfErr, IfOk, OnErr, OnOk, Some, Err, codes, decimal};
ghost use Rattle.pbmessage.specs.declared.message.DecodeFault.TheVariants.{Malformed, NoMemory};
ghost use Rattle.csi_types.specs.Codes.{name_of, number_of};
ghost use Rattle.csi_types.specs.declared.code.Code.{Code};
ghost use Rattle.envelope.specs.Envelope.{reply_bytes_of};
ghost use Rattle.csi_client.specs.Lines.{lines};
ghost use Rattle.csi_client.specs.Replies.{content, first_line, body_lines};
ghost use Rattle.csi_client.specs.Showing.{IsBad, IsBadAt, IsReadable};

use crate::lines::put_lines;
use csi_codec::decode_response;
use csi_types::{Code, Method, Response};
use envelope::Reply;
use itoa::Buffer;
use pbmessage::DecodeFault;
use std::alloc::{AllocError, Global};

fn put_status(out: &mut Vec<u8>, status: u8) -> Result<(), AllocError>
    ensures { OnOk result ((code : Code) → status ≡ number_of code
        → out.new.items ≡ out.old.items ++ decimal status ++ codes " " ++ name_of code) }
{
    let mut buffer = Buffer::new();
    out.extend_from_slice(buffer.format(status).as_bytes())?;
    out.extend_from_slice(b" ")?;
    let name = match Code::of(status) {
        Some(code) => code.name(),
        None => "-",
    };
    out.extend_from_slice(name.as_bytes())
}

fn put_content(alloc: Global, out: &mut Vec<u8>, text: &[u8], body: &[u8]) -> Result<(), AllocError>
    ensures { OnOk result (out.new.items ≡ out.old.items ++ content text.now body.now) }
{
    if !body.is_empty() {
        let digits = hex::encode(alloc, body)?;
        return out.extend_from_slice(digits.as_bytes());
    }
    out.extend_from_slice(if text.is_empty() { b"-" } else { text })
}

// Makes the line of a reply: its status as a number, the name of the status, and the body or the text.
fn reply_line(alloc: Global, reply: &Reply<'_>) -> Result<Vec<u8>, AllocError>
    ensures { IfOk result (λ line. (code : Code) → reply.now.status ≡ number_of code
        → line.items ≡ first_line code (reply_bytes_of reply.now)) }
{
    let mut line = Vec::new(alloc);
    put_status(&mut line, reply.status)?;
    line.extend_from_slice(b" ")?;
    put_content(alloc, &mut line, reply.text, reply.body)?;
    line.extend_from_slice(b"\n")?;
    Ok(line)
}

/// Appends one line for a reply: its status as a number, the name of the status, and the body in lower-case
/// hexadecimal digits. If the body is empty, the line has the text of the reply instead of the body, or `-`
/// if the text is empty too. The contract is only about replies whose status is one of the ten codes. Each
/// reply that [`take_reply`](envelope::take_reply) returns has such a status.
///
/// # Errors
///
/// If memory is refused. The vector is unchanged.
pub fn put_reply_line(alloc: Global, out: &mut Vec<u8>, reply: &Reply<'_>) -> Result<(), AllocError>
    ensures line { OnOk result ((code : Code) → reply.now.status ≡ number_of code
        → out.new.items ≡ out.old.items ++ first_line code (reply_bytes_of reply.now)) }
    ensures kept { OnErr result (out.new.items ≡ out.old.items) }
{
    let line = reply_line(alloc, reply)?;
    out.extend_from_slice(line.as_slice())
}

// Returns the lines of a response as new bytes. So `put_response` appends all lines or, if memory is refused,
// none.
fn lines_of(alloc: Global, response: &Response) -> Result<Vec<u8>, AllocError>
    ensures { IfOk result (λ said. said.items ≡ lines response.now) }
{
    let mut said = Vec::new(alloc);
    put_lines(&mut said, response)?;
    Ok(said)
}

// Appends the lines of a response. If memory is refused, the vector is unchanged.
fn put_response(alloc: Global, out: &mut Vec<u8>, response: &Response) -> Result<(), AllocError>
    ensures said { OnOk result (out.new.items ≡ out.old.items ++ lines response.now) }
    ensures kept { OnErr result (out.new.items ≡ out.old.items) }
{
    let said = lines_of(alloc, response)?;
    out.extend_from_slice(said.as_slice())
}

// Appends the lines of a decoded response, or returns the fault if decoding failed. The function borrows the
// response, so the caller makes only one call that can fail while it owns the response.
fn put_decoded(
    alloc: Global,
    out: &mut Vec<u8>,
    decoded: &Result<Response, DecodeFault>,
) -> Result<(), DecodeFault>
    ensures ok { IfOk decoded.now (λ response. OnOk result
        (out.new.items ≡ out.old.items ++ lines response)) }
    ensures err { IfErr decoded.now (λ fault. (result ≡ Err fault) × (out.new.items ≡ out.old.items)) }
    ensures malformed { (at : ℕ) → result ≡ Err (Malformed at) → decoded.now ≡ Err (Malformed at) }
    ensures memory { result ≡ Err NoMemory → (at : ℕ) → decoded.now ≢ Err (Malformed at) }
    ensures kept { OnErr result (out.new.items ≡ out.old.items) }
{
    match decoded {
        Ok(response) => { put_response(alloc, out, response).map_err(|_| DecodeFault::NoMemory) }
        Err(fault) => Err(*fault),
    }
}

/// Decodes the body of a reply as a response of `method`, and appends the response as lines, one line for
/// each part. Appends nothing if the call failed (its status is not 0) or no method is given.
///
/// # Errors
///
/// [`DecodeFault::Malformed`] if the body is not a response of the method. [`DecodeFault::NoMemory`] if the
/// body is a response of the method and memory is refused. The vector is unchanged after an error.
pub fn put_body_lines(
    alloc: Global,
    out: &mut Vec<u8>,
    method: Option<Method>,
    reply: &Reply<'_>,
) -> Result<(), DecodeFault>
    ensures ok { OnOk result (out.new.items ≡ out.old.items ++ body_lines method (reply_bytes_of reply.now)) }
    ensures readable { OnOk result (¬ IsBad method (reply_bytes_of reply.now)) }
    ensures malformed { (at : ℕ) → result ≡ Err (Malformed at) → IsBadAt method (reply_bytes_of reply.now) at
        × (out.new.items ≡ out.old.items) }
    ensures kept { OnErr result (out.new.items ≡ out.old.items) }
    ensures memory { result ≡ Err NoMemory → IsReadable method (reply_bytes_of reply.now) }
{
    let Some(method) = method else {
        return Ok(());
    };
    if reply.status != 0 {
        return Ok(());
    }
    let decoded = decode_response(alloc, method, reply.body);
    let put = put_decoded(alloc, out, &decoded);
    // An explicit drop is one call for the proof, and not a step for each part of each variant.
    drop(decoded);
    put
}
