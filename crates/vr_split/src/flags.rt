//! The flags that each side of a ring writes for the other.
ghost use Rattle.std.specs.Prelude.{⊤, [], ◌∷◌, codes};

use bitflags::{Flag, Flags, bitflag_items};

/// The flags of the available ring (virtio 1.2, section 2.7.6): the driver wants no interrupt.
#[derive(Clone, Copy, PartialEq, Eq, Debug)]
pub struct AvailableFlags(u16);

bitflag_items! {
    impl AvailableFlags: u16 {
        const NO_INTERRUPT = 1;
    }
}

impl Flags for AvailableFlags {
    type Bits = u16;

    ghost exact = { ⊤ };

    ghost table = { (codes "NO_INTERRUPT", 1) ∷ [] };

    ghost set_of = { λ f. f.0 };

    fn flags<'a>() -> &'a [Flag<AvailableFlags>] {
        AvailableFlags::FLAGS
    }

    fn bits(&self) -> u16 {
        self.0
    }

    fn from_bits_retain(bits: u16) -> AvailableFlags {
        AvailableFlags(bits)
    }
}

/// The flags of the used ring (virtio 1.2, section 2.7.8): the device wants no kick.
#[derive(Clone, Copy, PartialEq, Eq, Debug)]
pub struct UsedFlags(u16);

bitflag_items! {
    impl UsedFlags: u16 {
        const NO_NOTIFY = 1;
    }
}

impl Flags for UsedFlags {
    type Bits = u16;

    ghost exact = { ⊤ };

    ghost table = { (codes "NO_NOTIFY", 1) ∷ [] };

    ghost set_of = { λ f. f.0 };

    fn flags<'a>() -> &'a [Flag<UsedFlags>] {
        UsedFlags::FLAGS
    }

    fn bits(&self) -> u16 {
        self.0
    }

    fn from_bits_retain(bits: u16) -> UsedFlags {
        UsedFlags(bits)
    }
}
