//! The order law: on a ring that nobody disturbs, requests finish in the order in which they were
//! submitted.
//!
//! It stands on the model, its laws and the laws of rings alone.
#![tactic(auto)]

mod order;

pub use order::{instances_of_order, order_law};
