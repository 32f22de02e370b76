//! The law on transfers: bytes that go over a mapping in one direction go as they would without
//! copies.
//!
//! It stands on the model and its laws alone.
#![tactic(auto)]

mod transfer;

pub use transfer::{instances_of_transfer, transfer_law};
