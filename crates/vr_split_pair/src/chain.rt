//! What is kept of the chains of a queue.

use std::collections::VecDeque;

/// A chain that the device took: its number and its head.
#[derive(Clone, Copy, Debug)]
pub struct TakenChain {
    pub number: u64,
    pub head: u16,
}

/// The number of each chain by its head, the chains that the device has, how many chains were added, and how many parts
/// they have together.
#[derive(Drop)]
pub struct Chains {
    pub numbers: Vec<u64>,
    pub taken: VecDeque<TakenChain>,
    pub added: u64,
    pub placed: u64,
}
