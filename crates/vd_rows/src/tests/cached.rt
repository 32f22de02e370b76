//! Rows over a cache on a disk in memory.

use super::{Row, memory, requests, text_of, words_of};
use blk_memory_disk::MemDisk;
use std::alloc::{AllocError, Global};
use std::process::Abort;
use std::str;
use std::test::Fail;
use vd_cached::{CachedExit, cached_top};
use vd_io::{MemSink, MemSource};
use vd_num::{Bytes, Lines};

/// Runs a row over a cache of four lines on a disk of 64 sectors of which these calls fail, and gives the status and the disk.
fn run_cached(
    rt: &impl Abort,
    alloc: Global,
    row: &Row,
    fails: &[u64],
) -> Result<(u8, MemDisk), AllocError> {
    let words = words_of(alloc, &["cached", "4", "--sectors", "64"])?;
    let (script, replies) = text_of(alloc, row.lines)?;
    let text = Bytes::from_vec(script.as_bytes().to_vec(alloc)?);
    let mut source = MemSource::new(text, Lines::new(alloc));
    let mut sink = MemSink::new(alloc, 65536, Lines::new(alloc))?;
    let disk = MemDisk::new(alloc, 64, 16, Lines::from_vec(fails.to_vec(alloc)?))?;
    let CachedExit { exit, disk } = cached_top(alloc, &words, &mut source, &mut sink, disk);
    let written = str::from_utf8(sink.as_slice()).unwrap_or("no text");
    let is_due = written == replies.as_str();
    assert!(rt; is_due, "replies of {}:\n{written}", row.name);
    assert_eq!(rt; exit.lines_done, row.lines.len() as u64);
    Ok((exit.status, disk))
}

#[test]
fn whole_session_survives_each_crash(rt: HostRuntime) -> Result<(), Fail> {
    // Bit s of a pick chooses the content of sector s. The session writes the eight sectors from 8 on, once each, so
    // these picks choose each mix of old and new contents.
    for mix in 0..256 {
        let (status, disk) = run_cached(&rt, rt.alloc(), &requests::SESSION, &[])?;
        assert_eq!(rt; status, 0);
        let disk = disk.crash(mix << 8);
        let sector = disk.as_slice().get(4096..4099).unwrap_or(b"");
        assert_eq!(rt; sector, b"ab\0".as_slice());
    }
    Ok(())
}

#[test]
fn failed_last_flush_is_told(rt: HostRuntime) -> Result<(), Fail> {
    let (status, _disk) = run_cached(&rt, rt.alloc(), &memory::BOUNCED, &[0])?;
    assert_eq!(rt; status, 9);
    Ok(())
}
