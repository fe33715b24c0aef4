//! A change store at the other end of a connection: another program keeps the changes of a State, and this
//! program sends each change to it.
//!
//! [`RemoteChangeStore`] is a `ChangeStore` of `csi_through`. It sends changes to a [`Peer`], the program at
//! the other end of a connection. A request to a peer is a frame of the envelope (docs/PROTOCOL.md, "The
//! change store"). `specs/Asking.antt` defines which frame requests which change, and which reply confirms
//! the change. All assumptions about the other program are in one contract, the contract of
//! [`Peer::exchange`]. It assumes that the peer makes the change of a frame if and only if its reply confirms
//! the change. [`Channel`] is a peer over any reader and writer. No contract can promise that the other
//! program tells the truth, so a channel has a `doubt` from its first exchange on. From then on, its only
//! promises are about the bytes that it wrote and read.
//!
//! [`read_rows`] creates tables and puts all rows of a peer into them, page by page ([`read_pages`],
//! [`put_page`]). `specs/Pages.antt` defines what the body of a reply encodes, `specs/Taking.antt` how the
//! rows of a page change the tables, `specs/Walking.antt` which exchanges return all pages, and
//! `specs/Giving.antt` which State has such rows.
//!
//! ```rust
//! let changes = RemoteChangeStore::new(Channel::new(reader, writer));
//! let mut keeper = Through::copied(alloc, &mut tables, changes)?;
//! keeper.apply(alloc, &Change::AddVolume(volume))?;
//! ```
//!
//! # Not promised
//!
//! The contracts do not say what a program at the other end does. Memory may be refused at any time, and a
//! write or a read may fail at any time. So they do not exclude a `commit` that returns `NoMemory` without an
//! exchange, or an exchange that fails before it writes or reads a byte. Tests in
//! `tests/test_csid_change_store.py` exclude both.
#![tactic(auto)]

mod asking;
mod cells;
mod changes;
mod fault;
mod filling;
mod items;
pub mod laws;
mod pages;
mod peer;
mod reading;
mod remote;

pub use asking::{lead_frame, make_frame, read_frame};
pub use fault::RowsFault;
pub use filling::read_rows;
pub use pages::{PagesRead, put_page};
pub use peer::{Channel, Peer};
pub use reading::{ReadFault, read_pages};
pub use remote::RemoteChangeStore;
