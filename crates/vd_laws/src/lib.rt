//! The laws of the history machine: what holds after every list of steps. Each is the contract of a
//! function that does nothing.
//!
//! It stands on the numbers and the model alone, and no code stands under it: the laws are about the
//! model's definitions, and the engine hands them on for the run of a script.
#![tactic(auto)]

mod all_laws;
mod direct_law;
mod image_law;
mod isolation_law;
mod memory_law;
mod message_law;
mod presence;
mod read_law;
mod used_bytes_law;

pub use all_laws::laws;
pub use direct_law::{direct_transfer, instances_of_direct};
pub use image_law::{image_content, instances_of_image};
pub use isolation_law::{instances_of_isolation, isolation};
pub use memory_law::{driver_memory, instances_of_memory};
pub use message_law::{instances_of_messages, messages};
pub use presence::present_pages;
pub use read_law::{instances_of_reading, reads};
pub use used_bytes_law::{instances_of_used_bytes, used_bytes};
