//! The buffers of a driver.
//!
//! It stands on `vd_model`. Buffers have numbers from 0 on, a number isn't given out again, and together they have at
//! most [`LIMIT`] bytes. They stand for a device's acts: each has the length and the bytes that the definitions
//! `buffer_len` and `ram` give.
#![tactic(auto)]

mod buffer;
mod buffers;

pub use buffers::{Buffers, LIMIT};
