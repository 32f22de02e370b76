//! The block law: a request that completed did what the disk does.
//!
//! It stands on the model, its laws, the laws of rings and the order law alone.
#![tactic(auto)]

mod block;
mod rings;

pub use block::{block_law, instances_of_block};
pub use rings::ring_laws;
