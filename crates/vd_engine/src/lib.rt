//! The engine: it answers each step of a script as the history machine does.
//!
//! It keeps up to eight devices by their names over one pool of frames, and never the list of steps. `Engine::play`
//! promises the history machine's answer from every engine that stands for a history, and that the engine then stands
//! for the history with that step.
#![tactic(auto)]

mod clock;
mod control;
mod devices;
mod engine;
mod image;
mod lines;
mod raw;
mod windows;

pub use devices::Named;
pub use engine::{Engine, Stepped};
pub use vd_device::Sizes;
pub use windows::Given;
