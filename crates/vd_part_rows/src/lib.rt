//! The parts of one device: messages, the structs of `linux/vduse.h`, raw bytes, and what is checked of a creation.
//!
//! It stands on the crates of one device and has tests alone, so that none of those is proved a second time with its tests.
#![tactic(auto)]

#[cfg(test)]
mod tests;
