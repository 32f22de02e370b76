//! Mappings, regions and where bytes come from.

ghost use Rattle.std.specs.Prelude.{◌≡◌};
ghost use Rattle.vd_model.specs.Puts.{is_to_device, is_from_device};

/// Which way a mapping carries bytes; `To` is towards the device.
#[derive(Clone, Copy, Debug, PartialEq, Eq)]
pub enum Dir {
    To,
    From,
    Both,
}

impl Dir {
    /// Whether a mapping this way hands the driver's bytes to the device.
    pub fn is_to_device(self) -> bool
        ensures { result ≡ is_to_device self }
    {
        match self {
            Dir::From => false,
            Dir::To | Dir::Both => true,
        }
    }

    /// Whether a mapping this way brings the device's bytes back to the driver.
    pub fn is_from_device(self) -> bool
        ensures { result ≡ is_from_device self }
    {
        match self {
            Dir::To => false,
            Dir::From | Dir::Both => true,
        }
    }
}

/// A range of a driver's buffer that is to be mapped.
#[derive(Clone, Copy, Debug, PartialEq, Eq)]
pub struct Want {
    pub buffer: u64,
    pub offset: u64,
    pub len: u64,
    pub dir: Dir,
}

/// A mapping's or a coherent region's number, and the I/O virtual address of its first byte.
#[derive(Clone, Copy, Debug, PartialEq, Eq)]
pub struct Mapping {
    pub number: u64,
    pub iova: u64,
}

/// A live mapping: the I/O virtual address of its first byte, and what it maps.
#[derive(Clone, Copy, Debug, PartialEq, Eq)]
pub struct MapInfo {
    pub iova: u64,
    pub want: Want,
}

/// Why nothing was mapped: a length of 0, no place, or want of memory.
#[derive(Clone, Copy, Debug, PartialEq, Eq)]
pub enum MapError {
    Empty,
    NoSpace,
    Memory,
}

/// A region of I/O memory as a daemon sees it (`struct vduse_iotlb_entry` of `linux/vduse.h`);
/// both `start` and `last` belong to it, and the bits of `perm` are those of [`vd_num::Perm`].
#[derive(Clone, Copy, Debug, PartialEq, Eq)]
pub struct Region {
    pub start: u64,
    pub last: u64,
    pub offset: u64,
    pub perm: u8,
}

impl Region {
    /// The permission to read and to write (`VDUSE_ACCESS_RW` of `linux/vduse.h`).
    pub const READ_WRITE: u8 = 3;
}

/// The sectors of the image that a device's disk has: the first, and how many.
#[derive(Clone, Copy, Debug, PartialEq, Eq)]
pub struct Window {
    pub first: u64,
    pub count: u64,
}

/// Where a byte that a daemon reads came from. `Handed` names the mapping that handed it, or none
/// where the driver wrote it into a coherent region.
#[derive(Clone, Copy, Debug, PartialEq, Eq)]
pub enum Origin {
    Zero,
    Daemon,
    Handed { mapping: Option<u64> },
}
