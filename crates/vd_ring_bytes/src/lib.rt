//! What a ring's bytes are while nobody disturbs it: where its parts lie, what stands there, and
//! what a request's table is traced to.
//!
//! It stands on the model, its laws and the laws of rings alone.
#![tactic(auto)]

mod bytes;

pub use bytes::{firm_law, indirect_law, unmap_law};
