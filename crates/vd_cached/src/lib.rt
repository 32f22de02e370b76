//! A script over a write-back cache on a disk.
//!
//! It stands on `vd_top` and `blk_cache`. `cached_top` runs a script as `script_top` does, over a cache
//! that is flushed at the end, and gives the disk back. Where only that flush failed, its status tells.
#![tactic(auto)]

#[cfg(test)]
mod tests;
mod top;
mod words;

pub use top::{CachedExit, cached_top};
pub use words::{CachedWords, read_cached_words};
