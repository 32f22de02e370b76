//! A write-back cache between a block device's image and a disk.
//!
//! It stands on `blk_disk` and `blk_dirty`. A write is kept in memory and goes to the disk later, in
//! ascending order of sector. A crash at any moment leaves in each sector, whole, a content that it had at
//! the last flush or that a write gave it since, so each flushed write is there until the sector is written again.
#![tactic(auto)]

mod cache;
mod image;

pub use cache::{Cache, CacheRefused};
