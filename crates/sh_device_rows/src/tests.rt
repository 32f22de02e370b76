//! Threads on one device.

mod threads;
