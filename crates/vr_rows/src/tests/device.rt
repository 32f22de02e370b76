//! A device's side over memory that tells its bytes, with a driver that only stores.
ghost use Rattle.std.specs.Prelude.{◌≡◌, ◌<◌, ◌≤◌};

use std::alloc::{AllocError, Global};
use std::test::Fail;
use vd_num::Bus;
use vr_chain::{ChainFault, ChainKind, WalkError};
use vr_device::{DeviceRing, PopError};
use vr_split::fields::{
    available_event, available_flags, available_index, available_slot, used_element, used_event,
    used_index,
};
use vr_split::{Mem, RingPlace, VecMem, layout_of};

const BASE: u64 = 0x7fff000;

/// A ring of a size at 0x7fff000.
fn ring_of(size: u16) -> RingPlace
    requires { size ≤ 32768 }
    ensures { result.size ≡ size }
{
    let layout = layout_of(size);
    RingPlace {
        size,
        desc: BASE,
        driver: BASE + layout.driver_at,
        device: BASE + layout.device_at,
    }
}

/// A page of zeros at 0x7fff000.
fn page(alloc: Global) -> Result<VecMem, AllocError> {
    let mut bytes = Vec::new(alloc);
    bytes.resize(4096, 0)?;
    bytes.truncate(4096);
    Ok(VecMem::new(BASE, bytes))
}

/// How many of 70,000 chains of one descriptor are taken and given back one after another, each at its index.
fn rounds(mem: &mut VecMem, alloc: Global, size: u16) -> Result<u32, PopError>
    requires some { 0 < size }
    requires small { size ≤ 32768 }
{
    let place = ring_of(size);
    let mut ring = DeviceRing::resume(mem, place)?;
    let mut done = 0;
    for n in 0..70000u32 {
        let index = (n % 65536) as u16;
        let next = index.wrapping_add(1);
        mem.store16(available_slot(&place, index), index % size)?;
        mem.store16(available_index(&place), next)?;
        let Some(chain) = ring.next(alloc, mem, false)? else {
            return Ok(done);
        };
        ring.accept(mem, true)?;
        ring.push_used(mem, chain.head, n)?;
        let given = mem.load16(used_element(&place, index))?;
        if given != index % size
            || mem.load16(available_event(&place))? != next
            || mem.load16(used_index(&place))? != next
        {
            return Ok(done);
        }
        done = n + 1;
    }
    Ok(done)
}

#[test]
fn wraps_around(rt: HostRuntime) -> Result<(), Fail> {
    let alloc = rt.alloc();
    for size in [1, 4] {
        let mut mem = page(alloc)?;
        assert_eq!(rt; rounds(&mut mem, alloc, size)?, 70000, "at {size}");
    }
    Ok(())
}

#[test]
fn takes_and_gives(rt: HostRuntime) -> Result<(), Fail> {
    let alloc = rt.alloc();
    let mut mem = page(alloc)?;
    let place = ring_of(4);
    let mut ring = DeviceRing::resume(&mut mem, place)?;
    assert!(rt; ring.next(alloc, &mut mem, true)?.is_none());
    mem.store16(available_index(&place), 5)?;
    let ahead = PopError::Ahead { found: 5, known: 0 };
    assert_eq!(rt; ring.next(alloc, &mut mem, true).err(), Some(ahead));
    mem.store16(available_index(&place), 1)?;
    mem.store16(available_slot(&place, 0), 4)?;
    let fault = ChainFault {
        kind: ChainKind::Head,
        table: 0,
        index: 4,
    };
    let outside = PopError::Walk(WalkError::Fault(fault));
    assert_eq!(rt; ring.next(alloc, &mut mem, true).err(), Some(outside));
    mem.store16(available_flags(&place), 1)?;
    ring.push_used(&mut mem, 3, 0x10203)?;
    let mut element = [0; 8];
    mem.load(used_element(&place, 0), &mut element)?;
    assert_eq!(rt; element, [3, 0, 0, 0, 3, 2, 1, 0]);
    assert_eq!(rt; ring.should_interrupt(&mut mem, false), Ok(false));
    assert_eq!(rt; ring.should_interrupt(&mut mem, true), Ok(true));
    mem.store16(used_event(&place), 1)?;
    assert_eq!(rt; ring.should_interrupt(&mut mem, true), Ok(false));
    Ok(())
}

#[test]
fn misses_fields(rt: HostRuntime) -> Result<(), Fail> {
    let mut mem = page(rt.alloc())?;
    let place = RingPlace {
        size: 4,
        desc: BASE,
        driver: u64::MAX,
        device: BASE + 4088,
    };
    let mut ring = DeviceRing::resume(&mut mem, place)?;
    let past = Err(Bus { at: BASE + 4096 });
    assert_eq!(rt; ring.push_used(&mut mem, 0, 0), past);
    assert_eq!(rt; ring.accept(&mut mem, true), Err(Bus { at: BASE + 4124 }));
    assert_eq!(rt; ring.should_interrupt(&mut mem, true), Err(Bus { at: 11 }));
    assert_eq!(rt;
        ring.should_interrupt(&mut mem, false),
        Err(Bus { at: u64::MAX })
    );
    Ok(())
}
