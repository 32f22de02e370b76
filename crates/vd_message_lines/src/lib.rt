//! The lines on a device's control messages.
//!
//! It stands on `vd_msg`, `vd_raw` and `vd_answers`. Each call answers one line form: the answer of
//! the form's turn is heard, and the messages stand for the turn's acts, all of which are acts on
//! messages. Only a send takes memory.
#![tactic(auto)]

mod lines;
mod raw;

pub use lines::{answer, recv, send, timeout};
pub use raw::{read, write};
