//! What is taken back from a ring.

/// A chain that was used: its head, and how many bytes the device says that it wrote (virtio 1.2, section 2.7.8).
#[derive(Clone, Copy, Debug, PartialEq, Eq)]
pub struct Completion {
    pub head: u16,
    pub len: u32,
}

/// Why a used element isn't taken: its id is no head of a published chain, or the used index is further on than the
/// published chains that aren't taken back yet.
#[derive(Clone, Copy, Debug, PartialEq, Eq)]
pub enum UsedError {
    BadId { id: u32 },
    TooFarAhead { used: u16, published: u16 },
}
