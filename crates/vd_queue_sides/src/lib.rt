//! What is kept of a queue: the driver's side of its ring, and the block daemon's position and request in hand.
//! Two relations say which acts of a device each side stands for, and two laws say what each act does to it.
#![tactic(auto)]

mod laws;

pub use laws::{daemon_side, driver_side};
