//! Writes a text as one word of a line.

ghost use Rattle.std.specs.Prelude.{◌≡◌, ◌++◌, ◌<◌, OnOk};
ghost use Rattle.csi_client.specs.Escape.{is_plain, digit, escaped_byte, escaped};

use std::alloc::AllocError;

fn is_plain(byte: u8) -> bool
    ensures { result ≡ is_plain byte }
{
    33 <= byte && byte <= 126 && byte != b'%'
}

fn digit(n: u8) -> u8
    requires { n < 16 }
    ensures { result ≡ digit n }
{
    if n < 10 { b'0' + n } else { b'A' - 10 + n }
}

fn put_byte(out: &mut Vec<u8>, byte: u8) -> Result<(), AllocError>
    ensures { OnOk result (out.new.items ≡ out.old.items ++ escaped_byte byte) }
{
    if is_plain(byte) {
        return Ok(out.push(byte)?);
    }
    out.extend_from_slice(&[b'%', digit(byte / 16), digit(byte % 16)])
}

// Appends a text as one word. Each byte outside 0x21 to 0x7E and each percent sign is written as a percent
// sign and two hexadecimal digits in upper case. If memory is refused, the vector may contain a part of the
// word.
pub(crate) fn put_escaped(out: &mut Vec<u8>, text: &[u8]) -> Result<(), AllocError>
    ensures { OnOk result (out.new.items ≡ out.old.items ++ escaped text.now) }
{
    for byte in text {
        put_byte(out, *byte)?;
    }
    Ok(())
}
