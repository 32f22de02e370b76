//! Both sides of a packed queue (virtio 1.2, section 2.8), with the memory of its ring.
//!
//! The driver writes the parts of a chain into the slots of its next places, and takes used descriptors back by their
//! ids. The device reads chains from its own place on, and gives them back in any order. Contracts speak of the three
//! lists of `vr_pair`, and of the bytes of the ring.
#![tactic(auto)]

mod chain;
mod pair;
mod sides;
mod steps;
#[cfg(test)]
mod tests;

pub use pair::PackedPair;
