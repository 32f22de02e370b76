//! A second bus: one memory of a guest's bytes, which a daemon accesses through a table of regions with
//! permissions.
//!
//! The bus sets a whole table at a time and tells the daemon by a control message over all addresses. Nothing
//! is bounced. The Rust types of the steps and their answers stand here, and the definitions in `specs/`: what
//! each step is answered after what was done, and what each line of the bus's grammar says.
#![tactic(auto)]

mod access;
mod spans;
mod step;
mod word;
mod worked;

pub use access::{Access, Denied};
pub use spans::Spans;
pub use step::{VhostAnswer, VhostStep};
pub use word::{ALL_VHOST_WORDS, VhostWord};
pub use worked::worked_sessions;
