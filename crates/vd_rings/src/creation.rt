//! A ring is made in a coherent region of its own.
ghost use Rattle.std.specs.Prelude.{◌≡◌, ◌≢◌, ◌+◌, ◌*◌, ◌/◌, ◌%◌, ◌<◌, ◌≤◌, ◌^◌, ℕ, List, ◌∷◌, if◌then◌else◌, true, Some, None, Err, IfOk, OnErr};
ghost use Rattle.vd_num.specs.Number.{pages_of};
ghost use Rattle.vd_pool.specs.Memory.{PoolMemory};
ghost use Rattle.vd_model.specs.Setting.{Setting};
ghost use Rattle.vd_model.specs.Acts.{Act, Driver, Region_made};
ghost use Rattle.vd_model.specs.Live.{regions};
ghost use Rattle.vd_model.specs.Place as pages;
ghost use Rattle.vd_model.specs.Place.{taken_slots};
ghost use Rattle.vd_model.specs.RingTurns.{is_ring_size, ring_at, ring_bytes, driver_offset, device_offset};
ghost use Rattle.vd_model.specs.declared.memory.MapError.TheVariants.{Empty, NoSpace};
ghost use Rattle.vr_driver.specs.Side.{side_of};
ghost use Rattle.vd_domain.specs.Stands.{Stands};

use crate::held::HeldRing;
use std::alloc::Global;
use vd_domain::Domain;
use vd_model::{MapError, RingPlace};
use vd_num::align_of;
use vr_driver::DriverRing;
use vr_split::layout_of;

/// The size of a ring, if it is one: a power of two up to 32,768 (virtio 1.2, section 2.7).
pub fn ring_size(size: u64) -> Option<u16>
    ensures { result ≡ (if is_ring_size size then Some size else None) }
{
    if 1 <= size && size <= 32768 && align_of(size) == size {
        return Some(size as u16);
    }
    None
}

/// The place of a ring of a size from an address on.
fn place_at(size: u16, at: u64) -> RingPlace
    requires { size ≤ 32768 }
    ensures { result ≡ record {
      size = size;
      desc = at;
      driver = (at + driver_offset size) % 2 ^ 64;
      device = (at + device_offset size) % 2 ^ 64;
    } }
{
    let layout = layout_of(size);
    RingPlace {
        size,
        desc: at,
        driver: at.wrapping_add(layout.driver_at),
        device: at.wrapping_add(layout.device_at),
    }
}

/// Makes a ring of a size in a coherent region that it is laid out in from its first byte on.
pub fn made(alloc: Global, domain: &mut Domain, size: u16) -> Result<HeldRing, MapError>
    requires room { domain.old.made < 2 ^ 62 }
    requires size { is_ring_size size ≡ true }
    ensures ok { (x : Setting) (acts : List Act) (m : PoolMemory) → Stands x acts domain.old m → IfOk result (λ held.
        Stands x (Driver (Region_made (record {
          number = held.region;
          slot = held.ring.place.desc / 4096;
          len = ring_bytes size;
        })) ∷ acts) domain.new m) }
    ensures ring { (x : Setting) (acts : List Act) (m : PoolMemory) → Stands x acts domain.old m → IfOk result (λ held.
        (held.region ≡ regions acts) × (held.ring ≡ side_of (ring_at size (held.ring.place.desc / 4096)))) }
    ensures place { (x : Setting) (acts : List Act) (m : PoolMemory) → Stands x acts domain.old m → IfOk result (λ held.
        pages.place_of (taken_slots acts) (pages_of (ring_bytes size)) x.bounce x.iova ≡ Some
        (held.ring.place.desc / 4096)) }
    ensures full { (x : Setting) (acts : List Act) (m : PoolMemory) → Stands x acts domain.old m → result ≡ Err NoSpace
        → pages.place_of (taken_slots acts) (pages_of (ring_bytes size)) x.bounce x.iova ≡ None }
    ensures some { result ≢ Err Empty }
    ensures err { (x : Setting) (acts : List Act) (m : PoolMemory) → Stands x acts domain.old m →
        OnErr result (Stands x acts domain.new m) }
    ensures bounce { domain.new.bounce ≡ domain.old.bounce }
    ensures counts { (domain.new.maps ≡ domain.old.maps) × (domain.new.made ≤ domain.old.made + 1) }
{
    // The ring's own memory comes first, so that a region is never made in vain.
    let mut ring = match DriverRing::new(alloc, place_at(size, 0)) {
        Ok(ring) => ring,
        Err(_) => return Err(MapError::Memory),
    };
    let region = domain.alloc_coherent(layout_of(size).bytes)?;
    domain.sees_rings();
    ring.set_place(place_at(size, region.iova));
    Ok(HeldRing {
        region: region.number,
        ring,
    })
}
