//! The raw lines' bytes: the structs of `linux/vduse.h` as what the lines mean.
//!
//! It stands on `vd_abi` and `vd_model`. What an ioctl stands for is read from its bytes; a message
//! and a region are written as the bytes that a daemon reads, and its response is read. The layouts
//! of `vd_abi` and the definitions of the raw lines are shown to agree.
#![tactic(auto)]

mod ioctl;
mod message;
mod region;

pub use ioctl::{Ioctl, ioctl_in};
pub use message::{request_of, response_in};
pub use region::{entry_of, info_of};
