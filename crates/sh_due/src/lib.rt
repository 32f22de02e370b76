//! The request that is due: whether it is the one that was fetched, and what it does to its driver's part
//! of the image.
//!
//! It works over any memory. A ring may say anything: what is fetched is only taken up where it is the
//! request that is due, and only that one is ever executed.
#![tactic(auto)]

mod execution;
mod fetching;
mod parts;

pub use execution::{PART_SECTORS, execute};
pub use fetching::{Candidate, fetch};
pub use parts::Places;
