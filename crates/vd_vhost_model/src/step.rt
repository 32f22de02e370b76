//! The steps of the bus, one variant a line form, and what a step is answered.

use crate::spans::Spans;
use vd_model::{Answer, Text};
use vd_num::Range;

/// What a line asks for. Offsets are of the guest's memory, and addresses are the daemon's.
#[derive(Drop)]
pub enum VhostStep<'a> {
    /// Writes bytes of the guest's memory.
    Poke { offset: u64, bytes: Text<'a> },
    /// Reads bytes of the guest's memory.
    Peek { offset: u64, len: u64 },
    /// Sets the whole table, and tells the daemon of it by a message.
    SetMap { regions: Spans },
    /// Reads through the table.
    Load { at: u64, len: u64 },
    /// Writes through the table: all bytes, or none.
    Store { at: u64, bytes: Text<'a> },
    /// Finds the region of least start that overlaps the range.
    Lookup { range: Range },
    /// Receives the first message that isn't held.
    Recv,
    /// Answers a message that the daemon holds; 0 says that all went well.
    Answer { id: u32, result: u32 },
    /// The daemon is gone: what it held is received again.
    Lost,
    /// Lets so much time pass.
    Tick { seconds: u64 },
    /// Takes the end of a message.
    Take { id: u32 },
}

/// What a step is answered.
#[derive(Drop)]
pub enum VhostAnswer {
    /// As a line of a device is.
    Plain(Answer),
    /// The first address of an access that fails: its region doesn't permit the access.
    Perm { at: u64 },
}
