//! The greatest lengths of the envelope's parts, in bytes (docs/PROTOCOL.md, "Envelope").

/// The greatest length in bytes of the path in a frame of a call.
pub const MAX_PATH_BYTES: usize = 128;

/// The greatest length in bytes of the message in a frame of a call. The message is an encoded request.
pub const MAX_MESSAGE_BYTES: usize = 1_048_576;

/// The greatest length in bytes of the head of a call's frame: path length, path, flag and message length.
pub const MAX_HEAD_BYTES: usize = 2 + MAX_PATH_BYTES + 1 + 4;

/// The greatest length in bytes of a frame of a call: the longest head and the longest message.
pub const MAX_FRAME_BYTES: usize = MAX_HEAD_BYTES + MAX_MESSAGE_BYTES;

/// The greatest length in bytes of the text in a reply, which is the reason why a call was refused.
pub const MAX_TEXT_BYTES: usize = 1_024;

/// The greatest length in bytes of the body in a reply, which is an encoded response.
pub const MAX_BODY_BYTES: usize = 4_194_304;

/// The length in bytes of the head of a reply with status 0: status, text length, flag and body length.
pub const REPLY_HEAD_BYTES: usize = 1 + 2 + 1 + 4;

/// The greatest length in bytes of the head of a reply: status, text length, text, flag and body length.
pub const MAX_REPLY_HEAD_BYTES: usize = 1 + 2 + MAX_TEXT_BYTES + 1 + 4;

/// The greatest length in bytes of a frame of a reply. A reply with status 0 and the longest body has this
/// length.
pub const MAX_REPLY_BYTES: usize = REPLY_HEAD_BYTES + MAX_BODY_BYTES;

/// The greatest length in bytes of the text that [`refusal_frame`](crate::refusal_frame) accepts.
pub const MAX_REFUSAL_TEXT_BYTES: usize = 160;
