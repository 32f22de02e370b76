//! A cache of one line over a disk of four sectors.

ghost use Rattle.std.specs.Prelude.{◌≡◌, IfOk};

use blk_cache::Cache;
use blk_memory_disk::MemDisk;
use std::alloc::{AllocError, Global};
use std::process::Abort;
use std::test::Fail;
use vd_io::Image;
use vd_num::Lines;

const A: [u8; 512] = [b'A'; 512];

const B: [u8; 512] = [b'B'; 512];

/// More calls than the disk gets.
const CALLS: u64 = 8;

/// A cache of one line over a disk of four sectors of zeros, of which these calls fail.
fn cache_of(alloc: Global, fails: &[u64]) -> Result<Cache<MemDisk>, AllocError>
    ensures { IfOk result (λ c. c.disk.stored.sectors ≡ 4) }
{
    let disk = MemDisk::new(alloc, 4, 16, Lines::from_vec(fails.to_vec(alloc)?))?;
    match Cache::new(alloc, disk, 1) {
        Ok(cache) => Ok(cache),
        Err(_) => Err(AllocError),
    }
}

/// The first bytes of sectors 0 and 1.
fn firsts(disk: &MemDisk) -> (u8, u8) {
    let bytes = disk.as_slice();
    let first = bytes.get(0).copied().unwrap_or(b'?');
    let second = bytes.get(512).copied().unwrap_or(b'?');
    (first, second)
}

/// Writes A to sector 0 and B to sector 1, and flushes. Gives the disk, and whether the flush was answered Ok.
fn written(alloc: Global, fails: &[u64]) -> Result<(MemDisk, bool), AllocError> {
    let mut cache = cache_of(alloc, fails)?;
    let _a = cache.write_at(0, &A);
    let _b = cache.write_at(1, &B);
    let flushed = cache.flush().is_ok();
    Ok((cache.into_disk(), flushed))
}

/// Crashes after those calls leave old or new sectors, and new ones alone where the flush was answered Ok.
fn check_crashes(rt: &impl Abort, alloc: Global, fails: &[u64]) -> Result<(), AllocError> {
    for pick in 0..4 {
        let (disk, flushed) = written(alloc, fails)?;
        let (a, b) = firsts(&disk.crash(pick));
        let is_new = a == b'A' && b == b'B';
        let is_either = (a == b'A' || a == 0) && (b == b'B' || b == 0);
        assert!(rt;
            is_either,
            "a crash {pick} after calls that failed at {fails:?}"
        );
        assert!(rt;
            is_new || !flushed,
            "flushed sectors after calls that failed at {fails:?}"
        );
    }
    Ok(())
}

#[test]
fn row_until_a_crash(rt: HostRuntime) -> Result<(), Fail> {
    for pick in 0..4 {
        let mut cache = cache_of(rt.alloc(), &[])?;
        let mut piece = [0; 512];
        assert_eq!(rt; cache.write_at(0, &A), Ok(()));
        assert_eq!(rt; cache.dirty(), 1);
        assert_eq!(rt; cache.write_at(1, &B), Ok(()));
        assert_eq!(rt; cache.dirty(), 1);
        assert_eq!(rt; cache.read_at(0, &mut piece), Ok(()));
        assert_eq!(rt; piece[511], b'A');
        assert_eq!(rt; cache.read_at(1, &mut piece), Ok(()));
        assert_eq!(rt; piece[511], b'B');
        let (a, b) = firsts(&cache.into_disk().crash(pick));
        assert!(rt; (a == b'A' || a == 0) && b == 0);
    }
    Ok(())
}

#[test]
fn first_write_stays_in_memory(rt: HostRuntime) -> Result<(), Fail> {
    let mut cache = cache_of(rt.alloc(), &[])?;
    assert_eq!(rt; cache.write_at(0, &A), Ok(()));
    assert_eq!(rt; firsts(&cache.into_disk()), (0, 0));
    let (disk, flushed) = written(rt.alloc(), &[])?;
    assert!(rt; flushed);
    assert_eq!(rt; firsts(&disk), (b'A', b'B'));
    Ok(())
}

#[test]
fn crash_between_two_calls_of_the_disk(rt: HostRuntime) -> Result<(), Fail> {
    let mut stop = Vec::new(rt.alloc());
    for call in (0..CALLS).rev() {
        stop.push(call)?;
        check_crashes(&rt, rt.alloc(), &stop)?;
        check_crashes(&rt, rt.alloc(), &[call])?;
    }
    Ok(())
}
