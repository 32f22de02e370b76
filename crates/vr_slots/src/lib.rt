//! The ring of a packed queue (virtio 1.2, section 2.8): descriptors of 16 bytes, and the places of its laps.
#![tactic(auto)]

mod flags;
mod ring;
mod slot;
#[cfg(test)]
mod tests;

pub use flags::SlotFlags;
pub use ring::Slots;
pub use slot::Slot;
