//! Threads on one device: a session, and a daemon that loads while a driver maps.
//!
//! It stands on `sh_device` and has tests alone, so that the device isn't proved a second time with them.
#![tactic(auto)]

#[cfg(test)]
mod tests;
