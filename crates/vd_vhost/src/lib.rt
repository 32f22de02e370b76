//! A second bus: a guest's memory that a daemon accesses through a table of regions with permissions.
//!
//! It stands on `vd_guest` for the memory and its table and on `vd_msg` for the messages that tell the daemon
//! of a new table. A `Vhost` stands for the acts of the definitions (`vd_vhost_model`): each step is answered as
//! its turn says, and leaves what stands for the turn's acts too. Only a new table and a shown text take memory.
#![tactic(auto)]

mod bus;
mod memory;
mod messages;
mod table;
mod vhost;

pub use vd_vhost_model::{Spans, VhostAnswer, VhostStep};
pub use vhost::Vhost;
