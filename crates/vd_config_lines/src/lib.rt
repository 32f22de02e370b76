//! The lines on a device's config space.
//!
//! It stands on `vd_control` and `vd_answers`. Each call answers one line form: the answer of the
//! form's turn is heard, and the space stands for the turn's acts, all of which are acts on it.
#![tactic(auto)]

mod lines;

pub use lines::{getconfig, setconfig};
