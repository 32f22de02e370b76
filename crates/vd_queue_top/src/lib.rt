//! The whole of the queue program: its words, the lines of a text, and their replies.
//!
//! It stands on `vd_loop`, which reads lines and writes replies, on `vr_queue`, which answers a line over any pair of
//! both sides of a queue, and on the pairs themselves. `queue_top` says of every text what is written, the same for each
//! kind of ring.
#![tactic(auto)]

mod lines;
mod machine;
#[cfg(test)]
mod tests;
mod top;

pub use lines::queue_lines;
pub use top::queue_top;
pub use vd_loop::{Ended, Exit};
