//! A device's memory as its block driver uses it: the ring's memory, and buffers that are mapped where the device sees them.
//!
//! `DriverPort` lends a device's memory and the pool of its frames. It is a `Mem` and a `Dma`, and stands for the acts that
//! the memory stands for.
#![tactic(auto)]

mod port;
mod steps;
mod theirs;

pub use port::DriverPort;
