//! The parts of a bus.

ghost use Rattle.std.specs.Prelude.{◌≡◌, ◌≤◌, [], IfOk};

use std::alloc::{AllocError, Global};
use vd_guest::Guest;
use vd_msg::Messages;

/// How many seconds the daemon has for an answer.
const TIMEOUT: u32 = 30;

/// A guest's memory with its table, and the messages that tell a daemon of new tables. Contracts see its
/// `parts_of`, without the allocator and the room of a load.
#[derive(Drop)]
pub struct Bus {
    pub alloc: Global,
    pub guest: Guest,
    pub messages: Messages,
    /// The id of the message that told of the table that was set last.
    pub latest: Option<u32>,
    /// Seconds since the bus was made.
    pub clock: u64,
    /// What the last load showed; its room is used again.
    pub shown: Vec<u8>,
}

impl Bus {
    ghost use Rattle.vd_vhost.specs.After.{IsAfter};
    ghost use Rattle.vd_vhost.specs.Parts.{parts_of};

    /// A memory of so many zero bytes, no table, no messages, and the time 0.
    pub fn new(alloc: Global, bytes: u64) -> Result<Bus, AllocError>
        ensures { IfOk result (λ bus. IsAfter bytes [] (parts_of bus)) }
    {
        Ok(Bus {
            alloc,
            guest: Guest::new(alloc, bytes)?,
            messages: Messages::new(alloc, TIMEOUT, 0),
            latest: None,
            clock: 0,
            shown: Vec::new(alloc),
        })
    }
}
