//! The lines of a guest's bus: a line is read as a step.
//!
//! It stands on `vd_words` for the words of a line. `read_vhost_line` accepts exactly the grammar of
//! `vd_vhost_model`.
#![tactic(auto)]

mod read;

pub use read::read_vhost_line;
pub use vd_words::LineError;

#[cfg(test)]
mod tests;
