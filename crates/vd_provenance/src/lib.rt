//! Where each byte of a device's memory came from: zeros, the daemon, the driver, or the mapping that handed it.
//!
//! It keeps no byte and no list of what was done: origins by runs of equal neighbours, of bounce and coherent
//! memory and of the daemon's area, and what is live. One relation says which acts of a device it stands for;
//! each call adds its act, and the origin that is answered of an address is that of the definitions.
#![tactic(auto)]

mod acts;
mod lists;
mod state;
#[cfg(test)]
mod tests;

pub use state::Provenance;
pub use vd_origin_moves::{Kept, Placed, Shared};
