//! Carrying out the request that is due.
ghost use Rattle.std.specs.Prelude.{◌≡◌, [], true, false};
ghost use Rattle.sh_workload.specs.Requests.{applied};
ghost use Rattle.sh_due.specs.Due.{IsInHand};

use blk_daemon::{BlkQueue, Window};
use sh_workload::WorkRequest;
use vd_io::MemImage;

/// The sectors of a driver's part of the image.
pub const PART_SECTORS: u64 = 128;

/// What the device offers: bits 9, 29, 32 and 33.
const OFFERED: u64 = 0x3_2000_0200;

/// Carries out the request in hand, which is the one that is due, on its driver's part of the image.
/// False only where nothing is to be executed or the image failed; then the part is as before.
pub fn execute(queue: &mut BlkQueue, part: &mut MemImage, due: &WorkRequest) -> bool
    requires due { IsInHand due.now queue.old.request }
    requires whole { part.old.sectors ≡ 128 }
    requires name { queue.old.name ≡ [] }
    ensures applied { result ≡ true → part.new.bytes ≡ applied due.now part.old.bytes }
    ensures same { result ≡ false → part.new.bytes ≡ part.old.bytes }
    ensures whole { part.new.sectors ≡ 128 }
    ensures name { queue.new.name ≡ [] }
{
    let window = Window {
        first: 0,
        count: PART_SECTORS,
    };
    let Ok(executed) = queue.execute(part, window, OFFERED) else {
        return false;
    };
    if executed.failed {
        return false;
    }
    true
}
