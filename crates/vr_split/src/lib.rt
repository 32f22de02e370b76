//! What both sides of a split ring share: the memory that it lies in, and where its fields stand.
//! A `Mem` may tell what stands in it, and then each call says exactly what it loads, what it leaves, and the first
//! address that isn't there; it may tell a span in which no call fails; and it says what its calls keep.
//! `layout_of`, `need_event` and the addresses of a ring's fields are exact.
#![tactic(auto)]

pub mod fields;
mod flags;
pub mod mem;
pub mod reach;
pub mod ring;
pub mod vec_mem;

pub use flags::{AvailableFlags, UsedFlags};
pub use mem::Mem;
pub use ring::{Layout, layout_of, need_event};
pub use vd_model::RingPlace;
pub use vec_mem::VecMem;
