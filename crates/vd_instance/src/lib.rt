//! A device with its queues: what is behind a name, and every line form on it.
//!
//! It stands on `vd_device` and on the lines of both sides of a queue. `step` and `queue_step` answer a line exactly as the definitions do.
#![tactic(auto)]

mod daemons;
mod driver;
mod drivers;
mod instance;
mod known;
mod line;
mod service;
mod step;
mod walk;

pub use daemons::HeldDaemon;
pub use instance::{Instance, Offer};
pub use step::QueueLine;
