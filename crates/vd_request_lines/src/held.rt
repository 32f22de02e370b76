//! What is kept of a queue, and what is known of it.

use blk_driver::BlkDriver;
use std::alloc::Global;
use vd_model::QueueInfo;

/// The driver's side of a queue: the number of its ring's coherent region, and the ring with the requests that are pending.
#[derive(Drop)]
pub struct HeldDriver {
    pub region: u64,
    pub driver: BlkDriver,
}

/// What the state tells of a queue, where the device has it, and the features that the driver accepted.
#[derive(Clone, Copy, Debug)]
pub struct KnownDriver {
    pub info: Option<QueueInfo>,
    pub features: u64,
}

/// A ring that is to be made: its queue, its size, and where its memory comes from.
#[derive(Clone, Copy)]
pub struct RingWanted {
    pub queue: KnownDriver,
    pub size: u64,
    pub alloc: Global,
}
