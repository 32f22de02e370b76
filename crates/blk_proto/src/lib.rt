//! What a block driver and a block device exchange (virtio 1.2, section 5.2): the header of a
//! request, its types and statuses by number, and the capacity in the config space.
//!
//! It stands on `vd_num` for little-endian fields and names the window of a device's disk again. What
//! is written is the header's layout, what is read is what stands at each offset, and reading what
//! was written gives the header again; the numbers and their names are one to one.
#![tactic(auto)]

mod config;
mod header;
mod number;
#[cfg(test)]
mod tests;

pub use config::capacity_of;
pub use header::Header;
pub use number::{BlkStatus, BlkType};
pub use vd_model::Window;
