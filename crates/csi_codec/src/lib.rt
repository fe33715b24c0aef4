//! Decodes and encodes the messages of the Container Storage Interface (Protocol Buffers, proto3).
//!
//! Three short definitions describe each message: the value that its fields make, the payloads that its
//! fields may have (the schema), and how the value is written. The crate `pbmessage` reads and writes any
//! message by such definitions. The definitions are in `specs/messages/`, and the round trips in `proofs/`
//! (`TopologyLemmas.antt` for `Topology.antt`). The code is in `src/messages/`, in one file each for
//! requests, responses, volumes and other values.
//!
//! `MeansRequest` and `IsNoRequest` define which bytes encode a request, without an order of reading.
//! `specs/Reading.antt` defines the same by a function, for crates above that compute with it. The law
//! [`laws::reading`] proves that both definitions agree. Decoding takes two passes. The first looks for
//! faults and takes no memory, so a malformed message is never refused for lack of memory. The second builds
//! the value. Embedded messages are merged and written without a copy.
//!
//! ```rust
//! match decode(alloc, method, message) {
//!     Ok(request) => take(&request),
//!     Err(DecodeFault::Malformed { at }) => refuse(at),
//!     Err(DecodeFault::NoMemory) => give_up(),
//! }
//! ```
#![tactic(auto)]

mod created;
pub mod laws;
mod listing;
mod messages;
mod placement;
mod published;
mod requests;
mod responses;
mod short;

pub use created::{CreatedVolume, encode_created};
pub use listing::{ListedEntry, encode_entry};
pub use placement::Placement;
pub use published::encode_published;
pub use requests::{decode, decode_create, encode_request};
pub use responses::{decode_response, encode_response};
