//! What each turn on a ring leaves of what held of the device's rings: the ring's making, a chain's
//! placing, a fetch, a finish and a poll.
//!
//! It stands on the model, its laws and the laws of rings alone.
#![tactic(auto)]

mod turns;

pub use turns::{first_fetch_law, hand_law};
