//! The bytes of a ring.

use crate::{Slot, Slots};
use std::alloc::{AllocError, Global};
use std::test::Fail;

fn writes_a_place(alloc: Global) -> Result<bool, AllocError> {
    let mut slots = Slots::new(alloc, 2)?;
    let slot = Slot {
        at: 0x1122,
        len: 3,
        id: 4,
        flags: 0x83,
    };
    slots.set(3, slot);
    let bytes = slots.as_bytes();
    Ok(
        slots.get(1) == slot
            && bytes.get(16).copied() == Some(0x22)
            && bytes.get(17).copied() == Some(0x11)
            && bytes.get(30).copied() == Some(0x83),
    )
}

#[test]
fn a_place_of_the_second_lap(rt: HostRuntime) -> Result<(), Fail> {
    assert_eq!(rt; writes_a_place(rt.alloc()), Ok(true));
    Ok(())
}
