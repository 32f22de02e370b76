//! What a step is answered.

use crate::items::Items;
use vd_num::{Bytes, Errno};

/// A fixed word of a reply. `Kind` stands for the word `type`, and `Dash` for `-`.
#[derive(Clone, Copy, Debug, PartialEq, Eq)]
pub enum Tag {
    Session,
    Iova,
    Base,
    Offset,
    Start,
    Last,
    Perm,
    Capability,
    Id,
    Status,
    VqState,
    Iotlb,
    Avail,
    Num,
    Ready,
    Desc,
    Driver,
    Device,
    Parts,
    Readable,
    Writable,
    Head,
    Kind,
    Sector,
    Len,
    Irq,
    Idx,
    Kick,
    Buf,
    Map,
    Dash,
}

/// A field of a reply: a fixed word, a decimal number, an address in hexadecimal, or bytes.
#[derive(Drop)]
pub enum Item {
    Word(Tag),
    Number(u64),
    Address(u64),
    Text(Bytes),
}

/// Which rule a descriptor chain breaks (virtio 1.2, section 2.7.5).
#[derive(Clone, Copy, Debug, PartialEq, Eq)]
pub enum ChainKind {
    /// The head is no descriptor of the ring.
    Head,
    /// The chain comes back to a descriptor that it has visited.
    Loop,
    /// A next field is no descriptor of its table.
    Next,
    /// A device-readable descriptor comes after a device-writable one.
    Order,
    /// An indirect descriptor is malformed, or indirect descriptors were not negotiated.
    Shape,
    /// An indirect table has an indirect descriptor.
    Nested,
    /// The chain has more bytes than are served.
    Long,
}

/// The rule that a chain breaks, and at which descriptor: table 0 is the ring's, table 1 an
/// indirect one.
#[derive(Clone, Copy, Debug, PartialEq, Eq)]
pub struct ChainFault {
    pub kind: ChainKind,
    pub table: u8,
    pub index: u32,
}

/// What a step is answered.
#[derive(Drop)]
pub enum Answer {
    /// The step was done; the fields of its reply.
    Done(Items),
    Err(Errno),
    /// The first address of an access that cannot be accessed.
    Bus { at: u64 },
    Chain(ChainFault),
    /// A chain that is no block request: its readable and its writable bytes.
    Shape { readable: u64, writable: u64 },
    /// An available index too far ahead of the device's position.
    Ahead { found: u16, known: u16 },
    /// A used index ahead of what the driver has published.
    UsedAhead { used: u16, published: u16 },
    /// A used element whose id is no head of a published chain.
    BadId { id: u32 },
    /// A message that is neither answered nor failed.
    Pending,
    FailedReply { result: u32 },
    FailedTimeout { deadline: u64, now: u64 },
}
