//! What is kept of a ring.

use vr_driver::DriverRing;

/// A ring that the driver made: the number of its coherent region, and the driver's side of it.
#[derive(Drop)]
pub struct HeldRing {
    pub region: u64,
    pub ring: DriverRing,
}
