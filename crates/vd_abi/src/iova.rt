// What is passed to a device's node about its I/O memory.
ghost use Rattle.std.specs.Prelude.{◌≡◌, IfSome, is_some, length};
ghost use Rattle.vd_abi.specs.Layout.{ShowsEach, FitsEach, laid_out};
ghost use Rattle.vd_abi.specs.Structs.{iotlb_entry, is_iotlb_entry, iova_umem, is_iova_umem, iova_info, is_iova_info};
ghost use Rattle.vd_abi.specs.declared.iova.IotlbEntry.{IotlbEntry};
ghost use Rattle.vd_abi.specs.declared.iova.IovaUmem.{IovaUmem};
ghost use Rattle.vd_abi.specs.declared.iova.IovaInfo.{IovaInfo};

use crate::bytes::{are_zero, clear, get8, set8};
use vd_num::{get64, set64};

/// A region of I/O memory and how it is mapped (`struct vduse_iotlb_entry`). Both ends belong to it.
#[derive(Clone, Copy, Debug, PartialEq, Eq)]
pub struct IotlbEntry {
    pub offset: u64,
    pub start: u64,
    pub last: u64,
    pub perm: u8,
}

impl IotlbEntry {
    /// The bytes that it has, with seven of padding at the end.
    pub const LEN: usize = 32;

    /// The struct in these bytes; the padding is ignored.
    pub fn read(from: &[u8]) -> Option<IotlbEntry>
        ensures formed { is_some result ≡ is_iotlb_entry from.now }
        ensures fields { IfSome result (λ e. ShowsEach from.now (iotlb_entry e)) }
        ensures again { (e : IotlbEntry) → FitsEach (iotlb_entry e) →
            from.now ≡ laid_out 32 (iotlb_entry e) → result ≡ Some e }
    {
        if from.len() != IotlbEntry::LEN {
            return None;
        }
        Some(IotlbEntry {
            offset: get64(from, 0),
            start: get64(from, 8),
            last: get64(from, 16),
            perm: get8(from, 24),
        })
    }

    /// Writes it as bytes, with zeros in the padding.
    #[tactic(auto, unfolding(crate::specs::Layout::laid_out))]
    pub fn write(&self, into: &mut [u8])
        requires { length into.old ≡ 32 }
        ensures { into.new ≡ laid_out 32 (iotlb_entry self.now) }
    {
        clear(into);
        set64(into, 0, self.offset);
        set64(into, 8, self.start);
        set64(into, 16, self.last);
        set8(into, 24, self.perm);
    }
}

/// Memory of the daemon for a region of I/O memory (`struct vduse_iova_umem`).
#[derive(Clone, Copy, Debug, PartialEq, Eq)]
pub struct IovaUmem {
    pub uaddr: u64,
    pub iova: u64,
    pub size: u64,
}

impl IovaUmem {
    /// The bytes that it has.
    pub const LEN: usize = 48;

    /// The struct in these bytes.
    pub fn read(from: &[u8]) -> Option<IovaUmem>
        ensures formed { is_some result ≡ is_iova_umem from.now }
        ensures fields { IfSome result (λ u. ShowsEach from.now (iova_umem u)) }
        ensures again { (u : IovaUmem) → FitsEach (iova_umem u) →
            from.now ≡ laid_out 48 (iova_umem u) → result ≡ Some u }
    {
        if from.len() != IovaUmem::LEN || !are_zero(&from[24..]) {
            return None;
        }
        Some(IovaUmem {
            uaddr: get64(from, 0),
            iova: get64(from, 8),
            size: get64(from, 16),
        })
    }

    /// Writes it as bytes, with zeros in the reserved field.
    #[tactic(auto, unfolding(crate::specs::Layout::laid_out))]
    pub fn write(&self, into: &mut [u8])
        requires { length into.old ≡ 48 }
        ensures { into.new ≡ laid_out 48 (iova_umem self.now) }
    {
        clear(into);
        set64(into, 0, self.uaddr);
        set64(into, 8, self.iova);
        set64(into, 16, self.size);
    }
}

/// What a region of I/O memory can do (`struct vduse_iova_info`). Both ends belong to it.
#[derive(Clone, Copy, Debug, PartialEq, Eq)]
pub struct IovaInfo {
    pub start: u64,
    pub last: u64,
    pub capability: u64,
}

impl IovaInfo {
    /// The bytes that it has.
    pub const LEN: usize = 48;

    /// The capability of a region that memory of the daemon can stand for
    /// (`VDUSE_IOVA_CAP_UMEM`).
    pub const CAP_UMEM: u64 = 1;

    /// The struct in these bytes.
    pub fn read(from: &[u8]) -> Option<IovaInfo>
        ensures formed { is_some result ≡ is_iova_info from.now }
        ensures fields { IfSome result (λ i. ShowsEach from.now (iova_info i)) }
        ensures again { (i : IovaInfo) → FitsEach (iova_info i) →
            from.now ≡ laid_out 48 (iova_info i) → result ≡ Some i }
    {
        if from.len() != IovaInfo::LEN || !are_zero(&from[24..]) {
            return None;
        }
        Some(IovaInfo {
            start: get64(from, 0),
            last: get64(from, 8),
            capability: get64(from, 16),
        })
    }

    /// Writes it as bytes, with zeros in the reserved field.
    #[tactic(auto, unfolding(crate::specs::Layout::laid_out))]
    pub fn write(&self, into: &mut [u8])
        requires { length into.old ≡ 48 }
        ensures { into.new ≡ laid_out 48 (iova_info self.now) }
    {
        clear(into);
        set64(into, 0, self.start);
        set64(into, 8, self.last);
        set64(into, 16, self.capability);
    }
}
