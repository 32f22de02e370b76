//! What each side keeps.

use crate::chain::{ChainRecord, TakenChain};
use std::collections::VecDeque;

/// The driver's side: the place of its next descriptor, the place of the next used one, how many chains it added, the
/// ids that no chain has, and a record for each id.
#[derive(Drop)]
pub struct DriverSide {
    pub placed: u64,
    pub reclaimed: u64,
    pub added: u64,
    pub free: Vec<u16>,
    pub records: Vec<ChainRecord>,
}

/// The device's side: the place of the next available descriptor, the place of its next used one, how many chains it
/// took, and those that it has.
#[derive(Drop)]
pub struct DeviceSide {
    pub read: u64,
    pub written: u64,
    pub given: u64,
    pub taken: VecDeque<TakenChain>,
}
