//! The lines on a device's status, features, queues, kicks and interrupts.
//!
//! It stands on `vd_state` and `vd_answers`. Each call answers one line form: the answer of the
//! form's turn is heard, and the state stands for the turn's acts, all of which are acts on the
//! state. None of them takes memory.
#![tactic(auto)]

mod bus;
mod node;

pub use bus::bus_line;
pub use node::node_line;
