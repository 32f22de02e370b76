//! Rings, a part a module.

mod chains;
mod device;
mod driver;
mod memories;
