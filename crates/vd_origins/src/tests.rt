//! A small memory, set and copied.

use crate::{Origins, Run};
use std::test::Fail;
use vd_model::Origin;

#[test]
fn ranges_are_set_and_copied(rt: HostRuntime) -> Result<(), Fail> {
    let mut bus = Origins::new(rt.alloc());
    bus.set(10, 4, Origin::Daemon)?;
    bus.set(12, 8, Origin::Handed { mapping: Some(3) })?;
    assert_eq!(rt; bus.get(9), Origin::Zero);
    assert_eq!(rt; bus.get(11), Origin::Daemon);
    assert_eq!(rt; bus.get(12), Origin::Handed { mapping: Some(3) });
    assert_eq!(rt; bus.get(20), Origin::Zero);
    let mut area = Origins::new(rt.alloc());
    area.set(0, u64::MAX, Origin::Daemon)?;
    area.copy(101, 3, &bus, 11)?;
    assert_eq!(rt; area.get(100), Origin::Daemon);
    assert_eq!(rt; area.get(102), Origin::Handed { mapping: Some(3) });
    assert_eq!(rt; area.get(104), Origin::Daemon);
    Ok(())
}

/// Runs of one origin that touch become one.
#[test]
fn neighbours_are_joined(rt: HostRuntime) -> Result<(), Fail> {
    let run = |first: u64, last: u64| Run {
        first,
        last,
        origin: Origin::Daemon,
    };
    assert_eq!(rt; run(0, 4).joined(&run(5, 6)), Some(run(0, 6)));
    assert_eq!(rt; run(0, 4).joined(&run(6, 6)), None);
    Ok(())
}
