//! Descriptors, and writing them into the table of a ring (virtio 1.2, section 2.7.5).
ghost use Rattle.std.specs.Prelude.{◌≡◌, ◌<◌, length};
ghost use Rattle.std.specs.List.{All};
ghost use Rattle.vd_model.specs.RingTurns.{descriptor_bytes, flags_of};
ghost use Rattle.vr_split.specs.Mem.{Becomes};
ghost use Rattle.vr_split.specs.Reach.{TableInReach, KeepsReach};
ghost use Rattle.vr_driver.specs.Driver.{with_descriptor, chain_written};

use bitflags::Flags;
use vd_model::{Descriptor, Part, RingPlace};
use vd_num::{DescFlags, set16, set32, set64};
use vr_split::Mem;
use vr_split::reach::store_in_reach;

/// The bytes of a descriptor.
pub fn encode(d: &Descriptor) -> [u8; 16]
    ensures { result ≡ descriptor_bytes d.now.at d.now.len d.now.flags d.now.next }
{
    let mut bytes = [0; 16];
    set64(&mut bytes, 0, d.at);
    set32(&mut bytes, 8, d.len);
    set16(&mut bytes, 12, d.flags);
    set16(&mut bytes, 14, d.next);
    bytes
}

/// The flags of a descriptor of a part.
pub fn flags(has_next: bool, writable: bool) -> u16
    ensures { result ≡ flags_of has_next writable }
{
    let mut flags = 0;
    if has_next {
        flags |= DescFlags::NEXT.bits();
    }
    if writable {
        flags |= DescFlags::WRITE.bits();
    }
    flags
}

/// Writes a descriptor into the table.
pub fn write_descriptor<M: Mem>(mem: &mut M, place: &RingPlace, index: u16, d: &Descriptor)
    requires in_reach { TableInReach (M.told mem.old) (M.span mem.old) place.now }
    requires index { index < place.now.size }
    ensures written { Becomes M.told mem.old mem.new (λ m. with_descriptor m place.now index d.now) }
    ensures memory { KeepsReach M.told M.span M.keeps mem.old mem.new }
{
    store_in_reach(mem, place.desc + 16 * index as u64, &encode(d));
}

/// Writes parts into these descriptors of the table, and links them.
pub fn write_chain<M: Mem>(mem: &mut M, place: &RingPlace, parts: &[Part], indices: &[u16])
    requires in_reach { TableInReach (M.told mem.old) (M.span mem.old) place.now }
    requires same_len { length indices.now ≡ length parts.now }
    requires indices { All (λ i. i < place.now.size) indices.now }
    ensures written { Becomes M.told mem.old mem.new (λ m.
        chain_written m place.now parts.now indices.now (length parts.now)) }
    ensures memory { KeepsReach M.told M.span M.keeps mem.old mem.new }
{
    for (i, part) in parts.iter().enumerate() {
        let d = Descriptor {
            at: part.at,
            len: part.len,
            flags: flags(i + 1 < parts.len(), part.writable),
            next: indices.get(i + 1).copied().unwrap_or(0),
        };
        write_descriptor(mem, place, indices[i], &d);
    }
}
