//! A law about encoded columns. A law is a function that does nothing: its caller gets what the contract of
//! the law states.

ghost use Rattle.csi_columns.specs.Encoding.{ReadsBack};

use csi_codec::laws::{read_as_meant, round_trip};

/// If a request can be encoded, decoding its encoding gives the same request.
#[inline(always)]
pub fn read_back()
    ensures { ReadsBack }
{
    round_trip();
    read_as_meant();
}
