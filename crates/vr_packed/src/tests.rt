//! A chain goes round in the smallest and in the largest ring.
ghost use Rattle.std.specs.Prelude.{◌<◌, ◌≤◌};

use crate::PackedPair;
use std::alloc::{AllocError, Global};
use std::test::Fail;
use vr_pair::{Pair, Part, Parts, UsedChain};

/// Whether the first chain of a pair is added, taken, used once and reclaimed.
fn goes_round(alloc: Global, size: u16) -> Result<bool, AllocError>
    requires some { 0 < size }
    requires small { size ≤ 32768 }
{
    let part = Part {
        at: 0x10,
        len: 8,
        writable: false,
    };
    let mut pair = PackedPair::new(alloc, size)?;
    let mut into = Parts::new(alloc);
    let added = pair.add(&[part]).is_ok();
    let taken = pair.next(&mut into)? == Some(0);
    let given = into.as_slice() == [part].as_slice();
    let used = pair.used(0, 5) && !pair.used(0, 5);
    let done = pair.reclaim() == Some(UsedChain { number: 0, len: 5 });
    Ok(added && taken && given && used && done && pair.reclaim().is_none())
}

#[test]
fn a_chain_goes_round(rt: HostRuntime) -> Result<(), Fail> {
    assert_eq!(rt; goes_round(rt.alloc(), 1), Ok(true));
    assert_eq!(rt; goes_round(rt.alloc(), 32768), Ok(true));
    Ok(())
}
