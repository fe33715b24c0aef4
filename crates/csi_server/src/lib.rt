//! The server: it reads frames of calls and writes the frames of their replies.
//!
//! The engine, [`run_service`], knows no methods: it feeds a `Framer`, passes each call to a [`Service`], and
//! writes the service's answers. Its proof holds for any service, reader and writer, and uses only the public
//! clauses of `frames_core`. `specs/Machine.antt` defines the replies to calls and the states between them,
//! and `specs/Serving.antt` the bytes that are read and written for each end of a run.
//!
//! A service leaves room for the reply's head in a buffer and writes the body after it. The buffer is kept
//! from call to call, and a reply with a body is passed to the writer in one piece. `message.rt` decodes and
//! checks the message of a call. [`serve_identity`] runs a service without a state. [`serve`] runs a keeper:
//! each keeper is a service (`volumes.rt`), which answers a request with `csi_machine::append_answer`.
//! `specs/Requests.antt` defines the replies of a machine over requests; each machine adds only its step for
//! a request. [`laws`] states properties of runs, and of calls that are made again.
//!
//! ```rust
//! let mut keeper = MemKeeper::new(alloc, 1)?;
//! let end = serve(alloc, &config, &mut keeper, &mut reader, &mut writer);
//! ```
#![tactic(auto)]

mod end;
mod identity;
pub mod laws;
mod message;
mod refused;
mod running;
mod service;
mod volumes;
mod writing;

pub use end::RunEnd;
pub use identity::serve_identity;
pub use refused::{CallResult, Refusal};
pub use running::run_service;
pub use service::{Service, begin_body};
pub use volumes::serve;
