//! The law on coherent regions: they lie apart, past bounce memory, and what a driver puts lies in one.
//!
//! It stands on the model and its laws alone.
#![tactic(auto)]

mod regions;

pub use regions::{instances_of_regions, region_law};
