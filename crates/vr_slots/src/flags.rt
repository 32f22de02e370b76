//! The flags of a descriptor.
ghost use Rattle.std.specs.Prelude.{⊤, [], ◌∷◌, codes};

use bitflags::{Flag, Flags, bitflag_items};

/// The flags of a descriptor of a packed queue (virtio 1.2, sections 2.8.1 and 2.8.5).
#[derive(Clone, Copy, PartialEq, Eq, Debug)]
pub struct SlotFlags(u16);

bitflag_items! {
    impl SlotFlags: u16 {
        const NEXT = 1;
        const WRITE = 2;
        const AVAIL = 0x80;
        const USED = 0x8000;
    }
}

impl Flags for SlotFlags {
    type Bits = u16;

    ghost exact = { ⊤ };

    ghost table = { (codes "NEXT", 1) ∷ (codes "WRITE", 2) ∷ (codes "AVAIL", 128) ∷ (codes "USED", 32768) ∷ [] };

    ghost set_of = { λ f. f.0 };

    fn flags<'a>() -> &'a [Flag<SlotFlags>] {
        SlotFlags::FLAGS
    }

    fn bits(&self) -> u16 {
        self.0
    }

    fn from_bits_retain(bits: u16) -> SlotFlags {
        SlotFlags(bits)
    }
}
