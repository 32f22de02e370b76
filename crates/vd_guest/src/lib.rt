//! The memory of a guest, and the table of regions through which a daemon accesses it.
//!
//! It stands on `vd_regions` and on the definitions of `vd_vhost_model`. A table is set whole, after it was
//! seen that its regions lie apart and within the memory. An access goes region by region, a slice at a time,
//! with addresses modulo 2^64; one that fails names its first address that does, and a store then stores nothing.
#![tactic(auto)]

mod guest;
mod part;
mod table;

pub use guest::Guest;
pub use table::table_of;
pub use vd_regions::Regions;
