//! The volume machine: it answers requests from the volumes of a keeper, and changes the volumes.
//!
//! The machine first makes the *plan* of a request ([`Plan`], `plan.rt`): a response or a refusal, and at
//! most one change. `response.rt` has the responses. `body.rt` appends the body of a response to a reply, or
//! refuses a body that is too large for a reply. A plan is made from reads of the keeper by the rules of
//! `csi_rules`, and `specs/` defines the plan of each request. `identity.rt` plans the calls about the
//! plugin, `modify.rt` ControllerModifyVolume, and `validate.rt` ValidateVolumeCapabilities. `calls/` has a
//! file for each other request, and `planned.rt` the trait of requests that can be planned.
//!
//! `answering.rt` carries a plan out (`outcome.rt`): it appends the body of the response, makes the change,
//! and removes the body again if the change fails. Three requests are answered as their plans define, but
//! without a plan in memory: Probe; ListVolumes, whose page is written while it is read (`calls/listing.rt`,
//! `page.rt`, `places.rt`); and CreateVolume, whose response is written from the volume (`creation.rt`).
//!
//! `proofs/CreateLemmas.antt` and similar files prove that plans meet the definitions, and
//! `proofs/AnsweringLemmas.antt` puts the proofs together. [`laws`] states properties of sequences of
//! requests: the invariant, walks over pages, and requests that are sent again.
//!
//! ```rust
//! match append_answer(alloc, config, &mut keeper, &request, &mut reply)? {
//!     Verdict::Done => send(&reply),
//!     Verdict::Refused(reason) => refuse(reason),
//! }
//! ```
#![tactic(auto)]

mod answering;
mod body;
mod calls;
mod configured;
mod creation;
mod identity;
pub mod laws;
mod modify;
mod outcome;
mod page;
mod places;
mod plan;
mod planned;
mod response;
mod validate;

pub use answering::{answer, append_answer};
pub use body::{Verdict, append_body};
pub use plan::Plan;
pub use response::PlannedResponse;
