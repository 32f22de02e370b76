//! Words of flags: the device status and features.

ghost use Rattle.std.specs.Prelude.{⊤, [], ◌∷◌, codes};

use bitflags::{Flag, Flags, bitflag_items};

/// The device status (virtio 1.2, section 2.1).
#[derive(Clone, Copy, PartialEq, Eq, Debug)]
pub struct Status(u8);

bitflag_items! {
    impl Status: u8 {
        const ACKNOWLEDGE = 1;
        const DRIVER = 2;
        const DRIVER_OK = 4;
        const FEATURES_OK = 8;
        const NEEDS_RESET = 64;
        const FAILED = 128;
    }
}

impl Flags for Status {
    type Bits = u8;

    ghost exact = { ⊤ };

    ghost table = { (codes "ACKNOWLEDGE", 1) ∷ (codes "DRIVER", 2) ∷ (codes "DRIVER_OK", 4) ∷
        (codes "FEATURES_OK", 8) ∷ (codes "NEEDS_RESET", 64) ∷ (codes "FAILED", 128) ∷ [] };

    ghost set_of = { λ s. s.0 };

    fn flags<'a>() -> &'a [Flag<Status>] {
        Status::FLAGS
    }

    fn bits(&self) -> u8 {
        self.0
    }

    fn from_bits_retain(bits: u8) -> Status {
        Status(bits)
    }
}

/// The flags of a descriptor of a split virtqueue (virtio 1.2, section 2.7.5).
#[derive(Clone, Copy, PartialEq, Eq, Debug)]
pub struct DescFlags(u16);

bitflag_items! {
    impl DescFlags: u16 {
        const NEXT = 1;
        const WRITE = 2;
        const INDIRECT = 4;
    }
}

impl Flags for DescFlags {
    type Bits = u16;

    ghost exact = { ⊤ };

    ghost table = { (codes "NEXT", 1) ∷ (codes "WRITE", 2) ∷ (codes "INDIRECT", 4) ∷ [] };

    ghost set_of = { λ f. f.0 };

    fn flags<'a>() -> &'a [Flag<DescFlags>] {
        DescFlags::FLAGS
    }

    fn bits(&self) -> u16 {
        self.0
    }

    fn from_bits_retain(bits: u16) -> DescFlags {
        DescFlags(bits)
    }
}

/// What a region of I/O memory permits the daemon (`VDUSE_ACCESS_RO`, `_WO` and `_RW` of
/// `linux/vduse.h`).
#[derive(Clone, Copy, PartialEq, Eq, Debug)]
pub struct Perm(u8);

bitflag_items! {
    impl Perm: u8 {
        const READ = 1;
        const WRITE = 2;
        const READ_WRITE = 3;
    }
}

impl Flags for Perm {
    type Bits = u8;

    ghost exact = { ⊤ };

    ghost table = { (codes "READ", 1) ∷ (codes "WRITE", 2) ∷ (codes "READ_WRITE", 3) ∷ [] };

    ghost set_of = { λ p. p.0 };

    fn flags<'a>() -> &'a [Flag<Perm>] {
        Perm::FLAGS
    }

    fn bits(&self) -> u8 {
        self.0
    }

    fn from_bits_retain(bits: u8) -> Perm {
        Perm(bits)
    }
}
