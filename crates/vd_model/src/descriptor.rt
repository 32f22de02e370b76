//! Descriptors, and where they stand.

/// An entry of a descriptor table (virtio 1.2, section 2.7.5).
#[derive(Clone, Copy, Debug, PartialEq, Eq)]
pub struct Descriptor {
    pub at: u64,
    pub len: u32,
    pub flags: u16,
    pub next: u16,
}

/// A table of descriptors: the ring's own with number 0, or an indirect one with number 1.
#[derive(Clone, Copy, Debug, PartialEq, Eq)]
pub struct Table {
    pub number: u8,
    pub at: u64,
    pub entries: u16,
}

/// A descriptor's table, and its index in it.
#[derive(Clone, Copy, Debug, PartialEq, Eq)]
pub struct Position {
    pub table: Table,
    pub index: u16,
}
