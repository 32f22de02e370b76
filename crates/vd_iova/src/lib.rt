//! Which slots of an address space are taken, and where the next request goes.
//!
//! It stands on `vd_num` (rows of words whose reads are counted). A take gives exactly the greatest aligned
//! start whose slots meet no range that was taken, and answers `Full` exactly where there is none; a give
//! frees that range alone. A bit for each slot and a summary bit for each word bound the words that a take
//! reads. After `Iova::new` no call takes memory.
#![tactic(auto)]

mod iova;
mod large;
mod row;
mod small;
mod word;

pub use iova::{Full, Iova};
