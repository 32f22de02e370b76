//! A page that is mapped, carried into an area and back.

use crate::{Kept, Placed, Span, Stretch, adopt, clear_absent, give_back, put};
use std::test::Fail;
use vd_model::{Dir, Origin, Want};
use vd_origins::Origins;

#[test]
fn pages_are_carried(rt: HostRuntime) -> Result<(), Fail> {
    let mut bus = Origins::new(rt.alloc());
    let mut area = Origins::new(rt.alloc());
    let placed = Placed {
        number: 7,
        iova: 0x3000,
        want: Want {
            buffer: 0,
            offset: 0,
            len: 2,
            dir: Dir::To,
        },
    };
    let kept = Kept {
        base: 0x10000,
        size: 0x4000,
    };
    let met: Vec<Stretch> = Vec::new(rt.alloc());
    let mut live = Vec::new(rt.alloc());
    live.push(placed)?;
    bus.set(0x3000, 0x1000, Origin::Daemon)?;
    clear_absent(&mut bus, &met, placed.stretch(), 1)?;
    put(&mut bus, &mut area, None, placed.span(), placed.origin())?;
    adopt(&mut area, &bus, kept, &live, 1)?;
    assert_eq!(rt; area.get(0x13001), Origin::Handed { mapping: Some(7) });
    assert_eq!(rt; area.get(0x13002), Origin::Zero);
    let span = Span { at: 0x3fff, len: 2 };
    put(&mut bus, &mut area, Some(kept), span, Origin::Daemon)?;
    assert_eq!(rt; bus.get(0x4000), Origin::Daemon);
    assert_eq!(rt; bus.get(0x3fff), Origin::Zero);
    give_back(&mut bus, &area, kept, &live, 1)?;
    assert_eq!(rt; bus.get(0x3fff), Origin::Daemon);
    Ok(())
}
