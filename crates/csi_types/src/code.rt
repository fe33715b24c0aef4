//! The status codes that replies have.

ghost use Rattle.std.specs.Prelude.{◌≡◌, ◌↔◌};
ghost use Rattle.csi_types.specs.Codes.{number_of, name_of};
ghost use Rattle.csi_types.specs.declared.code.Code.{Code};

/// A status code of gRPC, with the meaning that the CSI specification, 'Error Scheme', gives it.
#[derive(Clone, Copy, Debug, PartialEq, Eq)]
pub enum Code {
    /// The call succeeded. Only a reply with this code has the body of a response.
    Ok = 0,
    /// The frame or the message of the call is malformed, or a field of the request is missing, too large,
    /// not valid or not supported. The code is also used if the volume lacks the requested capability, or if
    /// its mutable parameters would become too large.
    InvalidArgument = 3,
    /// The volume or the node does not exist.
    NotFound = 5,
    /// The volume or the attachment exists already, and is not compatible with the request.
    AlreadyExists = 6,
    /// No pool has room for the volume, the node is full, the reply is too large, there are 100,000 volumes,
    /// or the volume numbers are used up.
    ResourceExhausted = 8,
    /// The volume is published to a node. So it cannot be deleted, or cannot be published to another node.
    FailedPrecondition = 9,
    /// The starting token of ListVolumes is not valid.
    Aborted = 10,
    /// No size is within both the requested capacity range and the sizes that this plugin allows.
    OutOfRange = 11,
    /// No method has the path of the call.
    Unimplemented = 12,
    /// The plugin failed: memory was refused, the store failed, or the store is down after an earlier
    /// failure.
    Internal = 13,
}

impl Code {
    /// Returns the code with this number, or `None` if this plugin uses no code with the number.
    pub fn of(number: u8) -> Option<Code>
        ensures { (code : Code) → (result ≡ Some code) ↔ (number ≡ number_of code) }
    {
        Some(match number {
            0 => Code::Ok,
            3 => Code::InvalidArgument,
            5 => Code::NotFound,
            6 => Code::AlreadyExists,
            8 => Code::ResourceExhausted,
            9 => Code::FailedPrecondition,
            10 => Code::Aborted,
            11 => Code::OutOfRange,
            12 => Code::Unimplemented,
            13 => Code::Internal,
            _ => return None,
        })
    }

    /// Returns the number of the code in gRPC, which replies contain.
    pub fn number(self) -> u8
        ensures { result ≡ number_of self }
    {
        self as u8
    }

    /// Returns the name of the code in gRPC, such as `INVALID_ARGUMENT`.
    pub fn name(self) -> &'static str
        ensures { result.now ≡ name_of self }
    {
        match self {
            Code::Ok => "OK",
            Code::InvalidArgument => "INVALID_ARGUMENT",
            Code::NotFound => "NOT_FOUND",
            Code::AlreadyExists => "ALREADY_EXISTS",
            Code::ResourceExhausted => "RESOURCE_EXHAUSTED",
            Code::FailedPrecondition => "FAILED_PRECONDITION",
            Code::Aborted => "ABORTED",
            Code::OutOfRange => "OUT_OF_RANGE",
            Code::Unimplemented => "UNIMPLEMENTED",
            Code::Internal => "INTERNAL",
        }
    }
}
