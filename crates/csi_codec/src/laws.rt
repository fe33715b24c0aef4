//! Laws about which bytes encode which requests and responses. A law is a function that does nothing: its
//! caller gets what the contract of the law states.

ghost use Rattle.std.specs.Prelude.{◌≡◌, ℕ, ℤ, Bool, List, Option, Ok, Err, IsTrue};
ghost use Rattle.csi_types.specs.declared.method.Method.{Method};
ghost use Rattle.csi_types.specs.declared.requests.Request.{Request};
ghost use Rattle.csi_types.specs.declared.capacity.CapacityRange.{CapacityRange};
ghost use Rattle.csi_types.specs.declared.capability.Mount.{Mount};
ghost use Rattle.csi_types.specs.declared.capability.Capability.{Capability};
ghost use Rattle.csi_types.specs.declared.topology.Requirement.{Requirement};
ghost use Rattle.csi_types.specs.declared.volume.VolumeInfo.{VolumeInfo};
ghost use Rattle.csi_types.specs.declared.volume.Entry.{Entry};
ghost use Rattle.csi_types.specs.declared.volume.Confirmed.{Confirmed};
ghost use Rattle.csi_types.specs.declared.responses.Response.{Response};
ghost use Rattle.csi_types.specs.Maps.{TextMap};
ghost use Rattle.pbmessage.specs.Canon.{rises, canon_map_entry};
ghost use Rattle.csi_codec.specs.messages.Single.{canon_bool_value, canon_number, canon_only};
ghost use Rattle.csi_codec.specs.messages.Capacity.{canon_range};
ghost use Rattle.csi_codec.specs.messages.Capability.{canon_mount, canon_capability};
ghost use Rattle.csi_codec.specs.messages.Topology.{canon_map, canon_requirement};
ghost use Rattle.csi_codec.specs.messages.Volume.{canon_volume, canon_nodes, canon_entry, canon_confirmed};
ghost use Rattle.csi_codec.specs.Methods.{request_method, canon_request, request_bytes, FitsRequest, MeansRequest, IsGoodRequest, IsNoRequest, response_method, canon_response, response_bytes, FitsResponse, MeansResponse, IsGoodResponse, IsNoResponse};
ghost use Rattle.csi_codec.specs.Reading.{read_request, IsRead, read_response, IsReadResponse};

use csi_types::laws::map_entries;
use pbwire::laws::{spelled, written};

/// If a request or a response can be encoded, decoding its encoding gives the same value.
/// [`encode_request`](crate::encode_request) and [`encode_response`](crate::encode_response) return `Ok` only
/// for such values.
pub fn round_trip()
    ensures requests { (r : Request) → FitsRequest r → MeansRequest (request_method r) (request_bytes r) r }
    ensures responses { (r : Response) → FitsResponse r
        → MeansResponse (response_method r) (response_bytes r) r }
{
    spelled();
    written();
    map_entries();
}

/// The same bytes encode at most one request of a method, and at most one response of a method.
pub fn one_meaning()
    ensures requests { (m : Method) (bytes : List ℕ) (r s : Request) → MeansRequest m bytes r
        → MeansRequest m bytes s → r ≡ s }
    ensures responses { (m : Method) (bytes : List ℕ) (r s : Response) → MeansResponse m bytes r
        → MeansResponse m bytes s → r ≡ s }
{
    spelled();
}

/// If the first pass of decoding finds no fault in bytes (`IsGoodRequest`), they encode a request of the
/// method. The same holds for responses.
pub fn a_meaning()
    ensures requests { (m : Method) (bytes : List ℕ) → IsGoodRequest m bytes → (r : Request)
        × MeansRequest m bytes r }
    ensures responses { (m : Method) (bytes : List ℕ) → IsGoodResponse m bytes → (r : Response)
        × MeansResponse m bytes r }
{}

/// If bytes are refused as malformed, they encode no request of the method. The same holds for responses.
pub fn no_meaning()
    ensures requests { (m : Method) (bytes : List ℕ) (at : ℕ) → IsNoRequest m bytes at → (r : Request)
        → MeansRequest m bytes r → ⊥ }
    ensures responses { (m : Method) (bytes : List ℕ) (at : ℕ) → IsNoResponse m bytes at → (r : Response)
        → MeansResponse m bytes r → ⊥ }
{}

/// If bytes encode no request of a method, they are refused at one offset only. The same holds for responses.
pub fn one_offset()
    ensures requests { (m : Method) (bytes : List ℕ) (a b : ℕ) → IsNoRequest m bytes a → IsNoRequest m bytes b
        → a ≡ b }
    ensures responses { (m : Method) (bytes : List ℕ) (a b : ℕ) → IsNoResponse m bytes a
        → IsNoResponse m bytes b → a ≡ b }
{}

/// `read_request` and `read_response` compute the result of decoding from a method and any bytes. The result
/// is the value that the bytes encode, or the offset at which [`decode`](crate::decode) or
/// [`decode_response`](crate::decode_response) refuses the bytes.
pub fn reading()
    ensures requests { (m : Method) (bytes : List ℕ) → IsRead m bytes (read_request m bytes) }
    ensures responses { (m : Method) (bytes : List ℕ) → IsReadResponse m bytes (read_response m bytes) }
{
    spelled();
}

/// If bytes encode a request, `read_request` returns this request. If they encode no request, it returns the
/// offset at which decoding refuses the bytes. The same holds for responses and `read_response`.
pub fn read_as_meant()
    ensures requests { (m : Method) (bytes : List ℕ) (r : Request) → MeansRequest m bytes r
        → read_request m bytes ≡ Ok r }
    ensures no_request { (m : Method) (bytes : List ℕ) (at : ℕ) → IsNoRequest m bytes at
        → read_request m bytes ≡ Err at }
    ensures responses { (m : Method) (bytes : List ℕ) (r : Response) → MeansResponse m bytes r
        → read_response m bytes ≡ Ok r }
    ensures no_response { (m : Method) (bytes : List ℕ) (at : ℕ) → IsNoResponse m bytes at
        → read_response m bytes ≡ Err at }
{
    reading();
    one_meaning();
    no_meaning();
    one_offset();
}

/// In the encoding of a request or a response, the field numbers rise, and each is from 1 to 2^29 - 1
/// (Protocol Buffers language guide, 'Assigning Field Numbers').
pub fn rising()
    ensures requests { (r : Request) → IsTrue (rises (canon_request r)) }
    ensures responses { (r : Response) → IsTrue (rises (canon_response r)) }
{}

/// In the encoding of each message that can be inside another message, the field numbers rise, and each is
/// from 1 to 2^29 - 1. With [`rising`] this covers each message in an encoding.
pub fn rising_within()
    ensures ranges { (r : CapacityRange) → IsTrue (rises (canon_range r)) }
    ensures mounts { (m : Mount) → IsTrue (rises (canon_mount m)) }
    ensures capabilities { (c : Capability) → IsTrue (rises (canon_capability c)) }
    ensures map_entries { (e : List ℕ × List ℕ) → IsTrue (rises (canon_map_entry e)) }
    ensures maps { (m : TextMap) → IsTrue (rises (canon_map m)) }
    ensures requirements { (r : Requirement) → IsTrue (rises (canon_requirement r)) }
    ensures numbers { (z : ℤ) → IsTrue (rises (canon_number z)) }
    ensures flags { (b : Bool) → IsTrue (rises (canon_bool_value b)) }
    ensures service_capabilities { (o : Option ℤ) → IsTrue (rises (canon_only canon_number o)) }
    ensures volumes { (v : VolumeInfo) → IsTrue (rises (canon_volume v)) }
    ensures statuses { (nodes : List (List ℕ)) → IsTrue (rises (canon_nodes nodes)) }
    ensures entries { (e : Entry) → IsTrue (rises (canon_entry e)) }
    ensures confirmed { (c : Confirmed) → IsTrue (rises (canon_confirmed c)) }
{}
