//! Both sides of a split queue (virtio 1.2, section 2.7), with the memory of its ring.
//!
//! The driver's and the device's side are those of `vr_driver` and `vr_device`; they know of each other only what stands
//! in the memory. Contracts speak of the three lists of `vr_pair`.
#![tactic(auto)]

mod chain;
mod pair;
mod steps;
#[cfg(test)]
mod tests;

pub use pair::SplitPair;
