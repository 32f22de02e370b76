//! The driver's lines on a queue whose chains may be block requests: a ring is made and dropped, chains are added and published,
//! requests are placed, and a used chain is taken back, with the end of its request.
//!
//! The driver's side of a queue is kept beside the memory that its ring and its buffers lie in. Each call answers one line:
//! it tells the answer of the line's turn, and the memory and what is kept stand for the turn's acts.
#![tactic(auto)]

mod adding;
mod asking;
mod ending;
mod held;
mod laws;
mod making;
mod placing;
mod polling;
mod publishing;
mod rings;
mod submitting;

pub use adding::add;
pub use held::{HeldDriver, KnownDriver, RingWanted};
pub use laws::kept_requests;
pub use polling::poll;
pub use publishing::publish;
pub use rings::{ring, unring};
pub use submitting::{RequestWanted, submit};
