//! Recognises an HTTP/2 server by its first bytes.

ghost use Rattle.std.specs.Prelude.{◌≡◌};
ghost use Rattle.csictl.specs.Http2.{begins_http2};

/// Returns true if the first `count` of these bytes begin with `00 00 xx 04`: the head of a SETTINGS frame
/// with a payload of fewer than 256 bytes. An HTTP/2 server sends such a frame first (RFC 9113, 3.4, 4.1 and
/// 6.5). Returns false if `count` is below 4.
pub(crate) fn begins_http2(bytes: &[u8], count: usize) -> bool
    ensures { result ≡ begins_http2 bytes.now count }
{
    bytes.len() > 3 && count > 3 && bytes[0] == 0 && bytes[1] == 0 && bytes[3] == 4
}
