//! A ring in a coherent region of a device: which sizes it may have, how it is laid out, and how it is made.
//!
//! The region is the ring's own, and the ring lies in it from its first byte on. The lines on a ring stand elsewhere: they
//! ask here for a new ring, and whether the parts of a chain come in order.
#![tactic(auto)]

mod creation;
mod held;
mod order;

pub use creation::{made, ring_size};
pub use held::HeldRing;
pub use order::is_out_of_order;
