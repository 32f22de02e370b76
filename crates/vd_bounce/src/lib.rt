//! The bounce memory of a device: its pages over a pool of frames, and the area of its daemon.
//!
//! It stands on `vd_pool`. Contracts see a finite map from place to byte: addresses of present pages, and
//! offsets in the area. A zero frame changes no byte, since a page that isn't present reads as zeros. While
//! a range of the area is registered, the bounce bytes are the area's. Each call says what it leaves to the
//! frames that others hold. No call but `BounceMap::new` and `new_area` takes memory.
#![tactic(auto)]

mod bounce;
mod rows;

pub use bounce::{AreaError, BounceMap};
