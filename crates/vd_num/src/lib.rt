//! Numbers, ranges, error numbers, little-endian fields, bit sets and small lists.
//!
//! It is the lowest layer: every other crate stands on it. Each function is total where its
//! `requires` holds, takes no memory unless it answers `AllocError`, and equals the formula that
//! its contract names in `specs/`.
#![tactic(auto)]

mod bits;
mod bytes;
mod errno;
mod field;
mod lines;
mod name;
mod number;
mod steps;

pub use bits::{DescFlags, Perm, Status};
pub use bytes::Bytes;
pub use errno::Errno;
pub use field::{get16, get32, get64, set16, set32, set64};
pub use lines::Lines;
pub use name::Name;
pub use number::{Bus, Range, SLOT_SIZE, align_of, pages};
pub use steps::{Steps, Words};
