//! Checks of a request's arguments (CSI specification, the section of each call).
//!
//! [`check`] looks for the first line of a table that applies to the request and returns its reason.
//! `csi_types` defines the table (`specs/Checks`). The checks do not allocate. The table is about the parts
//! of a request: `parts.rt` borrows them for each method, and `requests.rt` has one check for each line, in
//! the order of the table. A preferred topology must be among the requisite topologies. In long lists,
//! comparing each preferred topology with each requisite topology would take too long. So each requisite
//! topology then gets a mark, which is a hash, and its place in the list is noted in a hash table on the
//! stack. `marks.rt` makes the marks, which a peer cannot choose. `places.rt` proposes, for the mark of a
//! preferred topology, places in the list of requisite topologies. The topology at each proposed place is
//! then compared.
//!
//! ```rust
//! if let Err(reason) = check(&request) {
//!     return refuse(reason);
//! }
//! ```
#![tactic(auto)]

mod capabilities;
mod marks;
mod measures;
mod parts;
mod places;
mod requests;
mod topologies;

pub use requests::check;
