//! The parts of one device, one a module.

mod control;
mod messages;
mod raw;
mod structs;
