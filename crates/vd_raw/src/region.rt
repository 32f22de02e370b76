//! Regions as a daemon reads them.

ghost use Rattle.std.specs.Prelude.{◌≡◌, ◌<◌};
ghost use Rattle.vd_model.specs.Raw.{entry_bytes, info_bytes};
ghost use Rattle.vd_model.specs.AreaTurns.{capability_of};
ghost use Rattle.vd_raw.specs.Seen.{entry_seen};

use vd_abi::{IotlbEntry, IovaInfo};
use vd_model::Region;

/// A region and how it is mapped, as a struct.
fn struct_of(region: Region) -> IotlbEntry
    ensures seen { result ≡ entry_seen region }
    ensures byte { result.perm < 256 }
{
    IotlbEntry {
        offset: region.offset,
        start: region.start,
        last: region.last,
        perm: region.perm,
    }
}

/// A region and how it is mapped (`struct vduse_iotlb_entry`).
pub fn entry_of(region: &Region) -> [u8; 32]
    ensures { result ≡ entry_bytes region.now }
{
    let mut bytes = [0; 32];
    struct_of(*region).write(&mut bytes);
    bytes
}

/// What a region can do: bounce memory, which begins at 0, is the only one that memory of the daemon
/// can stand for.
fn capability(region: &Region) -> u64
    ensures { result ≡ capability_of region.now }
{
    if region.start == 0 {
        IovaInfo::CAP_UMEM
    } else {
        0
    }
}

/// A region and what it can do (`struct vduse_iova_info`).
pub fn info_of(region: &Region) -> [u8; 48]
    ensures { result ≡ info_bytes region.now (capability_of region.now) }
{
    let mut bytes = [0; 48];
    let info = IovaInfo {
        start: region.start,
        last: region.last,
        capability: capability(region),
    };
    info.write(&mut bytes);
    bytes
}
