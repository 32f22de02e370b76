//! A descriptor of a packed queue.
ghost use Rattle.std.specs.Prelude.{◌≡◌};

use crate::flags::SlotFlags;
use bitflags::Flags;
use vd_num::{get16, get32, get64, set16, set32, set64};

/// A descriptor: the address and length of a buffer in bytes, the id of its chain, and flags (virtio 1.2, section 2.8.10).
#[derive(Clone, Copy, Debug, PartialEq, Eq)]
pub struct Slot {
    pub at: u64,
    pub len: u32,
    pub id: u16,
    pub flags: u16,
}

impl Slot {
    ghost use Rattle.vr_slots.specs.Slots.{slot_bytes, slot_of, slot_goes_on, slot_is_writable, has_available, has_used, is_available, is_used};

    /// What 16 bytes say.
    pub fn from_bytes(bytes: &[u8; 16]) -> Slot
        ensures { result ≡ slot_of bytes.now }
    {
        Slot {
            at: get64(bytes, 0),
            len: get32(bytes, 8),
            id: get16(bytes, 12),
            flags: get16(bytes, 14),
        }
    }

    /// Its 16 bytes.
    pub fn to_bytes(self) -> [u8; 16]
        ensures bytes { result ≡ slot_bytes self }
        ensures reads_back { slot_of result ≡ self }
    {
        let mut bytes = [0; 16];
        set64(&mut bytes, 0, self.at);
        set32(&mut bytes, 8, self.len);
        set16(&mut bytes, 12, self.id);
        set16(&mut bytes, 14, self.flags);
        bytes
    }

    /// Whether its chain goes on in the next slot.
    pub fn has_next(&self) -> bool
        ensures { result ≡ slot_goes_on self.now }
    {
        SlotFlags::from_bits_retain(self.flags).contains(SlotFlags::NEXT)
    }

    /// Whether the device writes its buffer.
    pub fn is_writable(&self) -> bool
        ensures { result ≡ slot_is_writable self.now }
    {
        SlotFlags::from_bits_retain(self.flags).contains(SlotFlags::WRITE)
    }

    fn has_available(&self) -> bool
        ensures { result ≡ has_available self.now }
    {
        SlotFlags::from_bits_retain(self.flags).contains(SlotFlags::AVAIL)
    }

    fn has_used(&self) -> bool
        ensures { result ≡ has_used self.now }
    {
        SlotFlags::from_bits_retain(self.flags).contains(SlotFlags::USED)
    }

    /// Whether the device may take it: AVAIL equals the wrap counter, and USED doesn't.
    pub fn is_available(&self, wrap: bool) -> bool
        ensures { result ≡ is_available wrap self.now }
    {
        self.has_available() == wrap && self.has_used() != wrap
    }

    /// Whether the driver may take it back: AVAIL and USED equal the wrap counter.
    pub fn is_used(&self, wrap: bool) -> bool
        ensures { result ≡ is_used wrap self.now }
    {
        self.has_available() == wrap && self.has_used() == wrap
    }
}
