//! A device's control path: its messages, state, config space, session and place on the bus.
//!
//! It stands on the groups of lines that need no memory of the device. `node_line` and `bus_line`
//! answer each line form that changes the control path alone: the answer of the form's turn is
//! heard, and the path stands for the turn's acts, which leave the device's memory alone.
#![tactic(auto)]

mod bus;
mod ends;
mod node;
mod path;

pub use ends::ends_counted;
pub use path::ControlPath;
