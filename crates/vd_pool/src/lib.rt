//! Frames of memory that are taken from one pool and given back to it.
//!
//! It stands on `vd_num`. A frame that was taken can't be dropped, so the compiler sees that each one is
//! given back. A taken frame is none of those that are out, and it holds zeros. A write changes the bytes
//! that it names and nothing else. The memory of a frame stays in the pool when the frame comes back.
#![tactic(auto)]

mod page;
mod pool;

pub use pool::{Frame, Pool};
