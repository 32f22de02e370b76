//! Worked rows of a cache over a disk in memory: what a crash leaves at each moment, and what a failing call of the disk
//! does.
//!
//! It stands on `blk_cache` and `blk_memory_disk` and has tests alone. Expected contents are worked out by hand.
#![tactic(auto)]

#[cfg(test)]
mod tests;
