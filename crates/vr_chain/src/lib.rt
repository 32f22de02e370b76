//! The walk of a chain of descriptors.
//! `walk` answers exactly how the trace of the chain ends: with the chain, with the first rule that it breaks, or at
//! the first address that isn't there. `one_trace` says that there is one such end for each memory, ring and head.
//! No memory is taken for a descriptor beyond its place in the chain.
#![tactic(auto)]

mod descriptor;
mod error;
mod gathered;
mod walker;

pub use error::WalkError;
pub use vd_model::{Chain, ChainFault, ChainKind, Part, Parts, RingPlace};
pub use walker::{one_trace, walk};
