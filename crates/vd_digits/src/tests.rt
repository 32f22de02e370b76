//! Digits where there is memory: a contract lets a call fail for want of it.

use super::*;
use std::test::Fail;

#[test]
fn bytes_go_both_ways(rt: HostRuntime) -> Result<(), Fail> {
    let mut text = Vec::new(rt.alloc());
    append_hex(&mut text, &[0, 9, 10, 0xa5, 0xff])?;
    assert_eq!(rt; text.as_slice(), b"00090aa5ff".as_slice());
    let mut bytes = Vec::new(rt.alloc());
    assert!(rt; decode(b"00090Aa5fF", &mut bytes)?);
    assert_eq!(rt; bytes.as_slice(), [0, 9, 10, 0xa5, 0xff].as_slice());
    for bad in [
        b"".as_slice(),
        b"0".as_slice(),
        b"0g".as_slice(),
        b"/0".as_slice(),
    ] {
        assert!(rt; !decode(bad, &mut bytes)?);
    }
    Ok(())
}
