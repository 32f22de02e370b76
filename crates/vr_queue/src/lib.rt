//! What answers the lines of the queue program, over any pair of both sides of a queue.
//!
//! It stands on `vr_pair`, which has the lines, the three lists and the replies as definitions, and on the words of
//! `vd_words` and `vd_script`. It names no kind of ring.
#![tactic(auto)]

mod read;
mod reply;
mod responder;
#[cfg(test)]
mod tests;

pub use read::read_queue_line;
pub use responder::Responder;
pub use vd_words::LineError;
