//! The control messages of one device, in three lists: those that wait for the daemon, those that
//! its session holds, and those that have ended and weren't taken.
//!
//! It stands on the numbers and the model. Each call makes the act that the model's definition
//! gives it after any earlier ones, and answers what follows from these acts, for every list of
//! calls. Only a send takes memory: the room of its message in both lists, and of its result until
//! that is taken.
#![tactic(auto)]

mod laws;
mod lists;
mod messages;

pub use laws::answered_once;
pub use messages::{Messages, NotHeld, SendError};
pub use vd_model::{Body, Sent, TakeAnswer};
