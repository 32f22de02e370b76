//! The laws of the rings: what holds of a queue's ring while nobody disturbs it.
//!
//! It stands on the model and its laws alone.
#![tactic(auto)]

mod rings;

pub use rings::{
    calm_rings, chains_out, instances_of_calm, positions, written_chains, written_tables,
};
