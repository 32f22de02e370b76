//! Parts in memory at hand.

use crate::{Part, Parts};
use std::alloc::{AllocError, Global};
use std::test::Fail;

fn keeps_parts(alloc: Global) -> Result<bool, AllocError> {
    let part = Part {
        at: 1,
        len: 2,
        writable: true,
    };
    let mut parts = Parts::new(alloc);
    parts.push(part)?;
    let first = parts.as_slice() == [part].as_slice();
    parts.clear();
    Ok(first && parts.as_slice().is_empty())
}

#[test]
fn parts_are_kept(rt: HostRuntime) -> Result<(), Fail> {
    assert_eq!(rt; keeps_parts(rt.alloc()), Ok(true));
    Ok(())
}
