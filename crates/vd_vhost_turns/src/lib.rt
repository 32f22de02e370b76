//! The lines of a guest's bus, answered one after another.
//!
//! It stands on `vd_vhost_lines`, which reads a line, on `vd_vhost` for the steps, and on `vd_replies` for the
//! replies. `VhostLines` does what a line says and prints its reply: the one that the definitions write.
#![tactic(auto)]

mod answer;
mod reply;

pub use answer::VhostLines;
