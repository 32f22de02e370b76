//! What a mapping and a coherent region keep beside their numbers.

use vd_model::Want;

/// A live mapping: its first slot, and what it maps.
#[derive(Clone, Copy, Drop)]
pub struct Bounced {
    pub slot: u64,
    pub want: Want,
}

/// A live coherent region: its first slot, and how many bytes were asked for.
#[derive(Clone, Copy, Drop)]
pub struct Extent {
    pub slot: u64,
    pub len: u64,
}
