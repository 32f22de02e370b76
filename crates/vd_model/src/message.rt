//! The control messages that the kernel sends to a daemon (`struct vduse_dev_request` of
//! `linux/vduse.h`).

use vd_num::Range;

/// What a message says: a new device status, a question for a queue's available index, or a range
/// of addresses whose regions changed.
#[derive(Clone, Copy, Debug, PartialEq, Eq)]
pub enum Body {
    Status { value: u8 },
    VqState { index: u32 },
    Iotlb { range: Range },
}

/// A message and its number.
#[derive(Clone, Copy, Debug, PartialEq, Eq)]
pub struct Sent {
    pub id: u32,
    pub body: Body,
}

/// A message as it was sent: its number, what it says, the time then, and its timeout in seconds,
/// 0 for none.
#[derive(Clone, Copy, Debug, PartialEq, Eq)]
pub struct Message {
    pub id: u32,
    pub body: Body,
    pub moment: u64,
    pub timeout: u32,
}

/// What became of a message.
#[derive(Clone, Copy, Debug, PartialEq, Eq)]
pub enum TakeAnswer {
    /// It is neither answered nor failed.
    Pending,
    /// It was answered with result 0; `avail` is the available index that the answer carried.
    Done { body: Body, avail: u16 },
    /// It was answered with another result.
    FailedByReply { body: Body, result: u32 },
    /// A timeout broke the device: the least deadline that was due, and the time then.
    FailedByTimeout { body: Body, deadline: u64, now: u64 },
    /// It was never sent, or its end was taken before.
    Unknown,
}
