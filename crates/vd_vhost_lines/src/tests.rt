//! Lines that are read where there is memory.

use crate::{LineError, read_vhost_line};
use std::test::Fail;
use vd_vhost_model::VhostStep;

#[test]
fn a_table_is_read(rt: HostRuntime) -> Result<(), Fail> {
    let mut scratch = Vec::new(rt.alloc());
    let line = b"setmap 0x1000:0x1003:4:1 0:7:8:256".as_slice();
    let Ok(Some(VhostStep::SetMap { regions })) = read_vhost_line(rt.alloc(), &mut scratch, line)
    else {
        return Err("a table is in the grammar".into());
    };
    let regions = regions.as_slice();
    assert_eq!(rt; regions.len(), 2);
    assert_eq!(rt; (regions[0].start, regions[0].last), (0x1000, 0x1003));
    assert_eq!(rt; (regions[0].offset, regions[0].perm), (4, 1));
    assert_eq!(rt; (regions[1].last, regions[1].perm), (7, 255));
    Ok(())
}

#[test]
fn bytes_are_read(rt: HostRuntime) -> Result<(), Fail> {
    let mut scratch = Vec::new(rt.alloc());
    let line = b"store 0x10 0aFF".as_slice();
    let read = read_vhost_line(rt.alloc(), &mut scratch, line);
    assert!(rt; matches!(read, Ok(Some(VhostStep::Store { at: 16, .. }))));
    Ok(())
}

#[test]
fn other_lines_are_bad(rt: HostRuntime) -> Result<(), Fail> {
    let mut scratch = Vec::new(rt.alloc());
    for line in [
        b"setmap 0:0:0".as_slice(),
        b"load 0 32769".as_slice(),
        b"lost now".as_slice(),
        b"answer 0 4294967296".as_slice(),
    ] {
        let read = read_vhost_line(rt.alloc(), &mut scratch, line);
        assert!(rt; matches!(read, Err(LineError::Bad)));
    }
    Ok(())
}
