//! What a run is asked for.

/// A run: the number from which its requests are made, its drivers, and the requests of each.
#[derive(Clone, Copy, Debug, PartialEq, Eq)]
pub struct WorkOptions {
    pub start: u64,
    pub drivers: u32,
    pub requests: u32,
}
