//! A mapping with a store into it, and a registration with another store.

ghost use Rattle.std.specs.Prelude.{◌≡◌};

use crate::{Kept, Placed, Provenance, Shared};
use std::test::Fail;
use vd_model::{Dir, Origin, Want};

fn placed(number: u64, iova: u64) -> Placed
    ensures iova { result.iova ≡ iova }
    ensures len { result.want.len ≡ 2 }
{
    Placed {
        number,
        iova,
        want: Want {
            buffer: 0,
            offset: 0,
            len: 2,
            dir: Dir::To,
        },
    }
}

#[test]
fn a_store_shows_in_a_mapping(rt: HostRuntime) -> Result<(), Fail> {
    let mut origins = Provenance::new(rt.alloc());
    origins.map(placed(0, 0x3fff000), 1)?;
    origins.daemon_put(0x3fff001, 1)?;
    let handed = Origin::Handed { mapping: Some(0) };
    assert_eq!(rt; origins.shown(0x3fff000, 16384, 1), Some(handed));
    assert_eq!(rt; origins.shown(0x3fff001, 16384, 1), Some(Origin::Daemon));
    assert_eq!(rt; origins.shown(0x3fff002, 16384, 1), Some(Origin::Zero));
    assert_eq!(rt; origins.shown(0x3ffefff, 16384, 1), None);
    origins.sync(0)?;
    assert_eq!(rt; origins.shown(0x3fff001, 16384, 1), Some(handed));
    origins.share(Shared {
        number: 0,
        iova: 0x4000000,
        len: 1,
    })?;
    origins.driver_put(0x4000000, 1)?;
    origins.driver_put_in(0, 1, 1)?;
    assert_eq!(rt;
        origins.shown(0x4000000, 16384, 1),
        Some(Origin::Handed { mapping: None })
    );
    assert_eq!(rt;
        origins.shown(0x4000001, 16384, 1),
        Some(Origin::Handed { mapping: None })
    );
    origins.unshare(0);
    assert_eq!(rt; origins.shown(0x4000000, 16384, 1), None);
    Ok(())
}

#[test]
fn a_registration_moves_origins(rt: HostRuntime) -> Result<(), Fail> {
    let mut origins = Provenance::new(rt.alloc());
    origins.map(placed(0, 0xf000), 1)?;
    origins.new_area(0x20000)?;
    origins.area_put(0x2000, 1)?;
    origins.register(
        Kept {
            base: 0x2000,
            size: 0x10000,
        },
        1,
    )?;
    let handed = Origin::Handed { mapping: Some(0) };
    assert_eq!(rt; origins.shown(0xf000, 16, 1), Some(handed));
    assert_eq!(rt; origins.shown(0, 16, 1), Some(Origin::Daemon));
    origins.daemon_put(0xf001, 1)?;
    origins.deregister(1)?;
    assert_eq!(rt; origins.shown(0xf001, 16, 1), Some(Origin::Daemon));
    assert_eq!(rt; origins.shown(0, 16, 1), None);
    origins.unmap(0);
    origins.close(1)?;
    assert_eq!(rt; origins.shown(0xf000, 16, 1), Some(handed));
    Ok(())
}
