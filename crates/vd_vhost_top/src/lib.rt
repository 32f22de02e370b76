//! The program of a guest's bus: its words, its lines, and the replies.
//!
//! It stands on `vd_loop` for the lines of a text, and on `vd_vhost_turns`, which answers a line. `vhost_top` says of
//! every text what is written at each status, and what the table promises in every run.
#![tactic(auto)]

mod machine;
#[cfg(test)]
mod tests;
mod top;

pub use top::vhost_top;
