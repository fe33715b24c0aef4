//! Laws for several clients that change volumes at once: their objects are linearizable.
//!
//! A client tries each of its requests until it is answered, as the sidecars of Kubernetes do. Replies are
//! lost, requests are refused for memory or by the store, `csid` stops and starts again, and clients give up.
//! Still each request takes effect once, at one moment between its first try and its answer, if no two
//! clients work on one object at once. An object is a volume under its name, a volume under its id, a volume
//! at a node, or mutable parameters of a volume.
//!
//! This is linearizability (M. P. Herlihy and J. M. Wing, "Linearizability: a correctness condition for
//! concurrent objects", ACM TOPLAS 12(3), 1990). A request is an operation. Its first try is the invocation,
//! the answer that its client hears is the response, and the step of the machine is the sequential
//! specification.
//!
//! - `specs/Objects.antt`: which requests leave the object of another request alone, that is, do not change
//!   it
//! - `specs/Clients.antt`: clients, their tries, and when tries are separate
//! - `specs/Histories.antt`: sessions of tries, with stops between them, and the answers that each client
//!   hears
//! - `specs/Linearizability.antt`: the order of operations, which keeps the real-time order
//! - `specs/Calls.antt`, `specs/Files.antt`: histories of calls and replies in bytes, and of runs over files
//! - `specs/Examples.antt`: two worked examples
//! - `specs/OtherVolumes.antt`: requests of other clients for other volumes, made before a request
//!
//! The crate has no code that runs. Each of its [`laws`] is a function that does nothing; the caller gets its
//! contract.
//!
//! ```text
//! client 0   CreateVolume, reply lost                              CreateVolume: OK, vol-1
//! client 1                             ControllerPublishVolume: OK
//! csid                                                      stop, start
//! order      CreateVolume of client 0, ControllerPublishVolume of client 1
//! ```
#![tactic(auto)]

pub mod laws;
