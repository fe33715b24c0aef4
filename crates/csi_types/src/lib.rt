//! The values of the Container Storage Interface (CSI 1.x, Identity and Controller services).
//!
//! The values are plain structs and enums, in one module for each subject, over four small types: [`Text`],
//! [`Items`], [`Map`] and [`Boxed`]. Contracts see a `Text` as its bytes, an `Items` as a list, a `Map` as a
//! finite map in byte order of its keys and a `Boxed` as the value in it. So definitions use the declared
//! type of a message directly, and proofs need no second set of types.
//!
//! `specs/` also has facts about values that the layers above need: the table of argument checks (`Checks`),
//! keys with ASCII letters in lower case, the supported capabilities, and the code and text of each refusal.
//! `topology.rt` compares topologies for all layers, and `topology/segments.rt` sorts the segments of a
//! topology on the stack. A `Map` puts its entries into a list while the keys come in rising order. After the
//! first key that is not greater than the keys before it, the map puts further entries into a tree
//! (`map/entering.rt`). So a map is fast for any order of keys. `map/entries.rt` iterates over list and tree.
//!
//! ```rust
//! let mut parameters = Map::new(alloc);
//! parameters.insert(Text::from_str(alloc, "tier")?, Text::from_str(alloc, "fast")?)?;
//! let method = method_of(b"/csi.v1.Controller/CreateVolume");
//! ```
//!
//! # Not promised
//!
//! The `Debug` output of a value may change, although cases of `test_bytes` show it. The memory that a value
//! takes may change too.
#![tactic(auto)]

mod boxed;
mod capability;
mod capacity;
mod code;
mod copies;
mod items;
pub mod laws;
mod limits;
mod map;
mod measures;
mod method;
mod name;
mod overlay;
mod reason;
mod requests;
mod responses;
mod text;
mod topology;
mod volume;

pub use boxed::Boxed;
pub use capability::{
    Access, Capability, Mount, is_known_mode, is_multi_node_writer, is_supported,
};
pub use capacity::CapacityRange;
pub use code::Code;
pub use copies::{copy_capability, copy_map, copy_text};
pub use items::Items;
pub use limits::{
    MAX_ACCESS_MODE, MAX_MAP_BYTES, MAX_MOUNT_FLAGS_BYTES, MAX_NODE_ID_BYTES, MAX_NODES,
    MAX_NUMBER, MAX_PAGE_ENTRIES, MAX_POOL_BYTES, MAX_POOLS, MAX_SEGMENTS, MAX_TEXT_BYTES,
    MAX_VOLUMES,
};
pub use map::{Map, MapEntries};
pub use measures::map_bytes;
pub use method::{Method, method_named, method_of};
pub use name::name_reason;
pub use overlay::{has_each, laid_over};
pub use reason::Reason;
pub use requests::{
    CreateVolume, DeleteVolume, GetCapacity, ListVolumes, Modify, Publish, Request, Unpublish,
    Validate,
};
pub use responses::Response;
pub use text::Text;
pub use topology::{Requirement, has_alike_keys, is_within, same_topology};
pub use volume::{Confirmed, Entry, VolumeInfo};
