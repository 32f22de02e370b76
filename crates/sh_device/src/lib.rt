//! The running device: memory, mappings and messages that threads share.
//!
//! A driver maps buffers and owns coherent regions, a daemon loads and stores, each by a pass of its
//! own. Access to the memory takes no lock: it is by the single atomic steps of `sh_cells`. Mappings
//! and messages lie under the two locks of `sh_parts`, with a journal of every step and its answer.
//! In any schedule a call adds to the view of its pass exactly what it did, and what it answers from
//! a journal comes with a note of its entry.
#![tactic(auto)]

mod access;
mod device;
mod held;
mod journals;
mod memory;
mod messages;
mod registration;
mod span;

pub use device::{Closed, Device, NewDevice};
pub use held::{Held, Noted};
pub use memory::{MapRefused, UnmapRefused};
pub use messages::SendAnswer;
pub use sh_cells::{DaemonPass, DriverPass, Log, Pass};
pub use sh_parts::{DomainState, MessageState, Naming, Note};
