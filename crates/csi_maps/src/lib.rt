//! Ordered maps of volumes and attachments in memory, and the indexes that find them.
//!
//! `rows.rt` has the map of volumes by number. Its values are the volumes of `stored.rt`, with the parameters
//! in the maps of `compact.rt`. `attachments.rt` has the attachments by number and node, and `nodes.rt` the
//! index of nodes. `names.rt` has the index of names, which uses the hash of `hash.rt`. The indexes agree
//! with the rows, also after an allocation was refused. `walk.rt` visits the attachments of a page of
//! volumes.
//!
//! `specs/Stored.antt` defines which volume a row is. `specs/Rows.antt` defines which finite maps of the
//! State the rows represent, and the contents of the index of nodes. `specs/Naming.antt` defines which volume
//! the index of names finds, and `specs/Walking.antt` which attachments a walk has not passed. `specs/facts/`
//! has facts that follow from these definitions: about ordered maps as finite maps, stored volumes, pages and
//! ranges of rows, and the index of nodes after a change.
//!
//! ```rust
//! let stored = StoredVolume::new(alloc, volume)?;
//! set_name(alloc, &mut names, &stored.name, number)?;
//! put_volume(&mut volumes, number, stored)?;
//! ```
#![tactic(auto)]

mod attachments;
mod compact;
mod hash;
mod names;
mod nodes;
mod rows;
mod stored;
mod walk;

pub use attachments::{attached_to, put_attachment, remove_attachment, remove_attachments};
pub use compact::CompactMap;
pub use names::{Names, drop_name, set_name, volume_named};
pub use nodes::{count_at, numbers_at};
pub use rows::{
    caps_at, fold_after, has_volume, nodes_after, put_volume, remove_volume, set_mutable, sizes_of,
    volume_at, volumes_after,
};
pub use stored::StoredVolume;
