//! The device's side of a split ring: it takes chains, and gives them back.
//! Each call says exactly what it answers by the bytes of the ring, each fault with the first address that isn't there,
//! and what it writes: `next` and `should_interrupt` change nothing, and `accept` and `push_used` write one field and
//! one element with its index, or nothing at all. Of a ring in reach no call answers a missing address.
#![tactic(auto)]

mod error;
mod ring;

pub use error::PopError;
pub use ring::DeviceRing;
