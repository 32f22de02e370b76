//! What a line asks of a queue.

use vd_model::Parts;

/// A line on a queue: add a chain, take the next one, give a taken chain back as used with this many bytes written, or
/// reclaim a used one.
#[derive(Drop)]
pub enum QueueLine {
    Add { parts: Parts },
    Next,
    Used { number: u64, len: u32 },
    Reclaim,
}
