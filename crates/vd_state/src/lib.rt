//! What the driver and the daemon set of a device: its status, features, queues, kicks and
//! interrupts.
//!
//! It stands on the numbers and the model. The state stands for the acts that were done to it: each
//! call adds the act of its name, or refuses with Inval exactly where the model's definition says
//! so, and answers what follows from the acts. Only its making takes memory.
#![tactic(auto)]

mod queue;
mod state;

pub use state::State;
pub use vd_model::QueueInfo;
