//! The lines on a device's memory: the driver's buffers, mappings and coherent regions, and what its daemon sees.
//!
//! It stands on `vd_domain` and `vd_buffers`. Each call answers one line: it tells the answer of the line's turn, and
//! the memory stands for the turn's acts. No call sees another part of the device.
#![tactic(auto)]

mod areas;
mod buffers;
mod coherent;
mod mappings;
mod memory;
mod steps;

pub use areas::{Extent, capability};
pub use memory::Memory;
