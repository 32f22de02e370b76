//! A virtqueue as three lists, and the lines that are asked of one.
//!
//! A `Pair` is both sides of a queue, with the memory of its ring. Its contract speaks of three lists alone: the chains
//! that wait, those that the device has taken, and those that it has used. It names no ring, flag or wrap counter.
#![tactic(auto)]

mod line;
mod pair;
mod parts;
#[cfg(test)]
mod tests;
mod worked;

pub use line::QueueLine;
pub use pair::{Pair, PairError, UsedChain};
pub use parts::Parts;
pub use vd_model::Part;
pub use worked::worked_session;
