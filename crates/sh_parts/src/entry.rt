//! What stands in the journals: steps and their answers.

use vd_model::{Body, Dir, Region, Sent, TakeAnswer};
use vd_num::{Errno, Range};

/// Which of the two journals.
#[derive(Clone, Copy, Debug, PartialEq, Eq)]
pub enum JournalKind {
    Domain,
    Messages,
}

/// A step on the device's memory. Lengths are in bytes.
#[derive(Clone, Copy, Debug, PartialEq, Eq)]
pub enum DomainStep {
    Map { len: u64, dir: Dir },
    Unmap { number: u64 },
    Coherent { len: u64 },
    FreeCoherent { number: u64 },
    Lookup { range: Range },
    Register,
    Deregister,
}

/// What a step on the memory answers. Mappings and coherent regions are numbered together from 0.
#[derive(Clone, Copy, Debug, PartialEq, Eq)]
pub enum DomainAnswer {
    /// The number of the mapping or region, and the I/O virtual address of its first byte.
    Mapped { number: u64, iova: u64 },
    Done,
    Found(Region),
    Err(Errno),
}

/// A step on the device's messages.
#[derive(Clone, Copy, Debug, PartialEq, Eq)]
pub enum MessageStep {
    Send { body: Body },
    Recv,
    Answer { id: u32, result: u32, avail: u16 },
    Lost,
    Tick,
    Take { id: u32 },
}

/// What a step on the messages answers.
#[derive(Clone, Copy, Debug, PartialEq, Eq)]
pub enum MessageAnswer {
    /// The id of a message that was sent.
    Id(u32),
    /// The message that a receive got, if one waited.
    Got(Option<Sent>),
    /// Whether an answer was accepted.
    Answered(bool),
    /// What a take tells.
    Taken(TakeAnswer),
    Done,
    Err(Errno),
}

/// An entry of either journal. A moment is in seconds.
#[derive(Clone, Copy, Debug, PartialEq, Eq)]
pub enum Entry {
    Domain {
        step: DomainStep,
        answer: DomainAnswer,
    },
    Message {
        step: MessageStep,
        moment: u64,
        answer: MessageAnswer,
    },
}
