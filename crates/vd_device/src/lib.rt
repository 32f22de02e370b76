//! One device: its memory and its control path, and every line form on them.
//!
//! It stands on `vd_control_path` and `vd_memory_lines`. `step` answers a line as the definitions do, but for the tests
//! of what belongs to a ring or to a pending request, which are made above it.
#![tactic(auto)]

mod bus;
mod device;
mod ioctl;
mod node;
mod session;
mod sizes;
mod step;
mod take;

pub use device::Device;
pub use sizes::Sizes;
