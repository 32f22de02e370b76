//! What the control node checks, and what it keeps of a device's making: the version of the
//! interface, what a device may be made of, and the bytes of its config space.
//!
//! It stands on `vd_abi`, whose struct it checks, and on `vd_model`, whose words its contracts use.
//! Each check refuses exactly where one of its rules is broken; a config space is the list of its
//! bytes, read and replaced exactly within its bounds.
#![tactic(auto)]

mod check;
mod space;

pub use check::{check_config, check_version};
pub use space::ConfigSpace;
