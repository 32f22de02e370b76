//! The memory of one device: mappings, coherent regions, what its daemon can access, the daemon's area and
//! its registration.
//!
//! It stands on `vd_bounce` for the bytes and on `vd_iova` for places; frames come from the pool that all
//! devices share, and those of coherent memory from a pool of its own. A look-up goes over the live regions.
//! The contracts see a record, and one relation says which acts of a device it stands for. Each call is told
//! by what the definitions answer after those acts, and adds its act.
#![tactic(auto)]

mod access;
mod booking;
mod domain;
mod numbered;
mod pages;
mod remaining;
mod streaming;
mod uses;

pub use domain::{AREA_START, Domain, NotLive, SyncError};
