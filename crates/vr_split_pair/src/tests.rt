//! A chain goes round in the smallest and in the largest ring, and two chains out of order.
ghost use Rattle.vd_model.specs.Rings.{IsRingSize};

use crate::SplitPair;
use std::alloc::{AllocError, Global};
use std::test::Fail;
use vr_pair::{Pair, PairError, Part, Parts, UsedChain};

const PART: Part = Part {
    at: 0x10,
    len: 8,
    writable: false,
};

/// Whether the first chain of a pair is added, taken, used once and reclaimed.
fn goes_round(alloc: Global, size: u16) -> Result<bool, AllocError>
    requires { IsRingSize size }
{
    let mut pair = SplitPair::new(alloc, size)?;
    let mut into = Parts::new(alloc);
    let added = pair.add(&[PART]).is_ok();
    let taken = pair.next(&mut into)? == Some(0);
    let given = into.as_slice() == [PART].as_slice();
    let used = pair.used(0, 5) && !pair.used(0, 5);
    let done = pair.reclaim() == Some(UsedChain { number: 0, len: 5 });
    Ok(added && taken && given && used && done && pair.reclaim().is_none())
}

/// Whether a full ring of two takes no third chain, and gives its chains back as they were used.
fn is_in_order(alloc: Global) -> Result<bool, AllocError> {
    let mut pair = SplitPair::new(alloc, 2)?;
    let mut into = Parts::new(alloc);
    let added = pair.add(&[PART]) == Ok(0) && pair.add(&[PART]) == Ok(1);
    let full = pair.add(&[PART]) == Err(PairError::Full);
    let taken = pair.next(&mut into)? == Some(0) && pair.next(&mut into)? == Some(1);
    let used = pair.used(1, 2) && pair.used(0, 4) && pair.next(&mut into)?.is_none();
    let first = pair.reclaim() == Some(UsedChain { number: 1, len: 2 });
    Ok(added && full && taken && used && first && pair.add(&[PART]) == Ok(2))
}

#[test]
fn chains_go_round(rt: HostRuntime) -> Result<(), Fail> {
    assert_eq!(rt; goes_round(rt.alloc(), 1), Ok(true));
    assert_eq!(rt; goes_round(rt.alloc(), 32768), Ok(true));
    assert_eq!(rt; is_in_order(rt.alloc()), Ok(true));
    Ok(())
}
