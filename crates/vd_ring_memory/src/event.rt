//! The step of a fetch that tells the driver the position.
ghost use Rattle.std.specs.Prelude.{◌≡◌, List, Some, true, false, OnOk, OnErr};
ghost use Rattle.byteorder.specs.Endian.{little_bytes};
ghost use Rattle.vd_bounce.specs.Frames.{Holds, Keeps};
ghost use Rattle.vd_model.specs.Setting.{Setting};
ghost use Rattle.vd_model.specs.Acts.{Act};
ghost use Rattle.vd_model.specs.Rings.{next16, available_event_at};
ghost use Rattle.vd_model.specs.DaemonTurns.{event_puts, has_event_idx};
ghost use Rattle.vd_domain.specs.Held.{SameCounts};
ghost use Rattle.vd_domain.specs.Stands.{Stands};
ghost use Rattle.vd_domain.specs.Seen.{daemon_map};
ghost use Rattle.vr_split.specs.Mem.{Stores};
ghost use Rattle.vd_ring_memory.specs.Puts.{IsReached, IsAfterPuts};
ghost use Rattle.vd_ring_memory.specs.Stores.{Accepts};

use crate::daemon::DaemonMem;
use vd_domain::Domain;
use vd_num::Bus;
use vd_pool::Pool;
use vr_device::DeviceRing;

/// The same over the memory that a daemon can access.
fn accepted(
    domain: &mut Domain,
    pool: &mut Pool,
    ring: &mut DeviceRing,
    event_idx: bool,
) -> Result<(), Bus>
    requires holds { Holds domain.old.bounce.frames pool.old }
    requires size { pool.old.per_page ≡ domain.old.bounce.per_page }
    requires reached { IsReached domain.old pool.old }
    ensures moved { OnOk result (ring.new ≡ record ring.old { position = next16 ring.old.position }) }
    ensures stays { OnErr result (ring.new ≡ ring.old) }
    ensures event { event_idx ≡ true → Stores (daemon_map domain.old pool.old) (available_event_at ring.old.place)
        (little_bytes 2 (next16 ring.old.position)) result (Some (daemon_map domain.new pool.new)) }
    ensures no_event { event_idx ≡ false → OnErr result ⊥ }
    ensures no_event_told { event_idx ≡ false →
        daemon_map domain.new pool.new ≡ daemon_map domain.old pool.old }
    ensures after { IsAfterPuts domain.old pool.old domain.new pool.new }
{
    let mut mem = DaemonMem { domain, pool };
    ring.accept(&mut mem, event_idx)
}

/// Moves the position on, and tells it to the driver where that asked for it.
pub fn accept(
    domain: &mut Domain,
    pool: &mut Pool,
    ring: &mut DeviceRing,
    event_idx: bool,
) -> Result<(), Bus>
    requires holds { Holds domain.old.bounce.frames pool.old }
    requires size { pool.old.per_page ≡ domain.old.bounce.per_page }
    requires reached { IsReached domain.old pool.old }
    ensures moved { OnOk result (ring.new ≡ record ring.old { position = next16 ring.old.position }) }
    ensures stays { OnErr result (ring.new ≡ ring.old) }
    ensures puts { (x : Setting) (acts : List Act) → Stands x acts domain.old pool.old →
        event_idx ≡ has_event_idx acts →
        Accepts x acts (event_puts acts ring.old.place (next16 ring.old.position))
        (available_event_at ring.old.place) 2 domain.new pool.new result }
    ensures kept { Keeps domain.old.bounce.frames domain.new.bounce.frames pool.old pool.new }
    ensures counts { SameCounts domain.old domain.new }
{
    domain.sees(pool);
    let ended = accepted(domain, pool, ring, event_idx);
    domain.sees(pool);
    ended
}
