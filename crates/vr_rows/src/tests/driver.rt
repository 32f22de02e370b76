//! A ring over memory that tells its bytes, and a device that writes into its used ring.
ghost use Rattle.std.specs.Prelude.{◌≡◌, ◌+◌, ◌*◌, ◌<◌, ◌≤◌, ◌^◌, length, Some, None, IfOk};
ghost use Rattle.vd_model.specs.Memory.{bytes_from};
ghost use Rattle.vr_split.specs.Reach.{RingInReach};

use std::alloc::{AllocError, Global};
use std::test::Fail;
use vd_num::{set16, set32};
use vr_driver::{AddError, Completion, DriverRing, Part, Published, RingPlace, UsedError};
use vr_split::reach::store_in_reach;
use vr_split::{Mem, VecMem};

const READ: Part = Part {
    at: 0x3fff000,
    len: 16,
    writable: false,
};

const WRITTEN: Part = Part {
    at: 0x3ffe000,
    len: 512,
    writable: true,
};

/// A page of zeros, from the descriptor table on.
fn page(alloc: Global, place: &RingPlace) -> Result<VecMem, AllocError>
    requires low { place.now.desc + 4096 ≤ 2 ^ 32 }
    requires desc { 16 * place.now.size ≤ 4096 }
    requires driver_low { place.now.desc ≤ place.now.driver }
    requires driver_high { place.now.driver + (6 + 2 * place.now.size) ≤ place.now.desc + 4096 }
    requires device_low { place.now.desc ≤ place.now.device }
    requires device_high { place.now.device + (6 + 8 * place.now.size) ≤ place.now.desc + 4096 }
    ensures { IfOk result (λ mem. RingInReach (Some (bytes_from mem.base mem.bytes.items)) None place.now) }
{
    let bytes = vec![in alloc; 0; 4096]?;
    Ok(VecMem::new(place.desc, bytes))
}

/// Stores bytes into the used ring, as its device does.
fn store_used(mem: &mut VecMem, place: &RingPlace, offset: u64, bytes: &[u8])
    requires in_reach { RingInReach (Some (bytes_from mem.old.base mem.old.bytes.items)) None place.now }
    requires some { 0 < length bytes.now }
    requires within { offset + length bytes.now ≤ 6 + 8 * place.now.size }
    ensures { RingInReach (Some (bytes_from mem.new.base mem.new.bytes.items)) None place.now }
{
    store_in_reach(mem, place.device.wrapping_add(offset), bytes);
}

/// The device stores bytes into the used ring, and then the driver looks there.
fn reclaim_after(
    ring: &mut DriverRing,
    mem: &mut VecMem,
    place: &RingPlace,
    offset: u64,
    bytes: &[u8],
) -> Result<Option<Completion>, UsedError>
    requires place { ring.old.place ≡ place.now }
    requires in_reach { RingInReach (Some (bytes_from mem.old.base mem.old.bytes.items)) None place.now }
    requires some { 0 < length bytes.now }
    requires within { offset + length bytes.now ≤ 6 + 8 * place.now.size }
    ensures place { ring.new.place ≡ place.now }
    ensures in_reach { RingInReach (Some (bytes_from mem.new.base mem.new.bytes.items)) None place.now }
{
    store_used(mem, place, offset, bytes);
    ring.reclaim(mem, false)
}

/// A chain is added and published, its device uses it, and it is taken back.
fn goes_round(ring: &mut DriverRing, mem: &mut VecMem, place: &RingPlace, index: u16) -> bool
    requires place { ring.old.place ≡ place.now }
    requires some { 0 < place.now.size }
    requires in_reach { RingInReach (Some (bytes_from mem.old.base mem.old.bytes.items)) None place.now }
    ensures place { ring.new.place ≡ place.now }
    ensures in_reach { RingInReach (Some (bytes_from mem.new.base mem.new.bytes.items)) None place.now }
{
    let Ok(head) = ring.add(mem, &[READ]) else {
        return false;
    };
    let Published { idx, kick } = ring.publish(mem, false);
    let mut element = [0; 8];
    set32(&mut element, 0, head as u32);
    set32(&mut element, 4, 5);
    store_used(mem, place, 4 + 8 * (index % place.size) as u64, &element);
    let mut next = [0; 2];
    set16(&mut next, 0, index.wrapping_add(1));
    let done = reclaim_after(ring, mem, place, 2, &next);
    kick && idx == index.wrapping_add(1) && done == Ok(Some(Completion { head, len: 5 }))
}

/// How many rounds of some go well.
fn count_rounds(alloc: Global, size: u16, rounds: u32) -> Result<u32, AllocError>
    requires some { 0 < size }
    requires small { size ≤ 4 }
{
    let place = RingPlace {
        size,
        desc: 4096,
        driver: 4160,
        device: 4176,
    };
    let mut mem = page(alloc, &place)?;
    let mut ring = DriverRing::new(alloc, place)?;
    for round in 0..rounds {
        if !goes_round(&mut ring, &mut mem, &place, (round % 65536) as u16) {
            return Ok(round);
        }
    }
    Ok(rounds)
}

#[test]
fn indices_wrap(rt: HostRuntime) -> Result<(), Fail> {
    assert_eq!(rt; count_rounds(rt.alloc(), 1, 70_000)?, 70_000);
    assert_eq!(rt; count_rounds(rt.alloc(), 4, 70_000)?, 70_000);
    Ok(())
}

#[test]
fn takes_back_what_was_published(rt: HostRuntime) -> Result<(), Fail> {
    let alloc = rt.alloc();
    let place = RingPlace {
        size: 4,
        desc: 0x7fff000,
        driver: 0x7fff040,
        device: 0x7fff050,
    };
    let mut mem = page(alloc, &place)?;
    let mut ring = DriverRing::new(alloc, place)?;
    assert_eq!(rt; ring.reclaim(&mut mem, false), Ok(None));
    assert_eq!(rt; ring.add(&mut mem, &[READ]), Ok(0));
    assert_eq!(rt;
        ring.publish(&mut mem, false),
        Published { idx: 1, kick: true }
    );
    let bad = reclaim_after(
        &mut ring,
        &mut mem,
        &place,
        0,
        &[0, 0, 1, 0, 9, 0, 0, 0, 0, 0, 0, 0],
    );
    assert_eq!(rt; bad, Err(UsedError::BadId { id: 9 }));
    let far = reclaim_after(&mut ring, &mut mem, &place, 2, &[3, 0]);
    assert_eq!(rt;
        far,
        Err(UsedError::TooFarAhead {
            used: 3,
            published: 1
        })
    );
    let done = reclaim_after(
        &mut ring,
        &mut mem,
        &place,
        2,
        &[1, 0, 0, 0, 0, 0, 5, 0, 0, 0],
    );
    assert_eq!(rt; done, Ok(Some(Completion { head: 0, len: 5 })));
    Ok(())
}

#[test]
fn writes_descriptors(rt: HostRuntime) -> Result<(), Fail> {
    let alloc = rt.alloc();
    let place = RingPlace {
        size: 4,
        desc: 4096,
        driver: 4160,
        device: 4176,
    };
    let mut mem = page(alloc, &place)?;
    let mut ring = DriverRing::new(alloc, place)?;
    assert_eq!(rt; ring.add(&mut mem, &[READ, WRITTEN]), Ok(0));
    assert_eq!(rt; ring.add_indirect(&mut mem, 0x1000, 3), Ok(2));
    assert_eq!(rt; ring.add(&mut mem, &[READ, WRITTEN]), Err(AddError::Full));
    assert_eq!(rt; ring.add(&mut mem, &[READ; 5]), Err(AddError::TooLong));
    assert_eq!(rt;
        ring.publish(&mut mem, true),
        Published { idx: 2, kick: true }
    );
    assert_eq!(rt;
        ring.publish(&mut mem, true),
        Published {
            idx: 2,
            kick: false
        }
    );
    let mut bytes = [0; 72];
    mem.load(4096, &mut bytes)?;
    let descriptors = [
        0, 0xf0, 0xff, 3, 0, 0, 0, 0, 16, 0, 0, 0, 1, 0, 1, 0, 0, 0xe0, 0xff, 3, 0, 0, 0, 0, 0, 2,
        0, 0, 2, 0, 0, 0, 0, 0x10, 0, 0, 0, 0, 0, 0, 48, 0, 0, 0, 4, 0, 0, 0, 0, 0, 0, 0, 0, 0, 0,
        0, 0, 0, 0, 0, 0, 0, 0, 0, 0, 0, 2, 0, 0, 0, 2, 0,
    ];
    assert_eq!(rt; bytes, descriptors);
    Ok(())
}
