//! Summary lines, against a table that another program made.

use crate::{WorkOptions, request, summary};
use sha2::{Digest, Sha256};
use std::alloc::{AllocError, Global};
use std::test::Fail;

/// The lines of runs of one to eight drivers with eight requests each, from 1 on.
const LINES: [&str; 8] = [
    "drivers 1 requests 8 reads 6 writes 2 flushes 0 sectors 21 digest 090e9c5da077d5ddeffd54b00fa04af537fa452b11bbde01f842cc245ee1bf6e\n",
    "drivers 2 requests 16 reads 10 writes 6 flushes 0 sectors 46 digest 5e2aeb80d62b199041879ded27c7e36f66fcab510aab7baa43f62ea619d63490\n",
    "drivers 3 requests 24 reads 11 writes 11 flushes 2 sectors 65 digest dcead2fda5a34a33c212bed3d408c0b1b4f44e7f9e9e3a235ce29a033c42163b\n",
    "drivers 4 requests 32 reads 12 writes 16 flushes 4 sectors 78 digest 05cd5f2016b5d34cc00b5fbf331ce9e954963153422f72e758f817fe9f5b6227\n",
    "drivers 5 requests 40 reads 15 writes 21 flushes 4 sectors 97 digest 19e82001ee4556f1df42d4ad108c12955a2de06b51b37e40033c267e4727aca6\n",
    "drivers 6 requests 48 reads 17 writes 24 flushes 7 sectors 109 digest d01ac2e769d3e28426efc15bf56c79e0114adc588b91323c5d9fe6888bd54d37\n",
    "drivers 7 requests 56 reads 20 writes 29 flushes 7 sectors 130 digest 56c73b9a7d3a24166aebd9caeb9c6afed49aba3057c4a777e1a6a61a2bee6a0d\n",
    "drivers 8 requests 64 reads 24 writes 33 flushes 7 sectors 151 digest 0544c2b7fc1f2537f7dc786c13d6d2eb8b40bfd5bfbc5c4eba048b2c25108756\n",
];

/// What a driver's requests leave of its part, each write put over what is there.
fn part(alloc: Global, driver: u32, requests: u32) -> Result<Vec<u8>, AllocError> {
    let mut part = vec![in alloc; 0; 65536]?;
    for place in 0..requests {
        if driver > 7 || place >= 20000 {
            break;
        }
        let asked = request(alloc, 1, driver, place)?;
        let at = asked.sector.wrapping_mul(512) as usize;
        for (j, byte) in asked.bytes.as_slice().iter().enumerate() {
            if let Some(cell) = part.get_mut(at.wrapping_add(j)) {
                *cell = *byte;
            }
        }
    }
    Ok(part)
}

/// The line of a run from 1 on.
fn line(alloc: Global, drivers: u32, requests: u32) -> Result<Vec<u8>, AllocError> {
    let mut hasher = Sha256::new();
    for driver in 0..drivers {
        hasher.update(part(alloc, driver, requests)?.as_slice());
    }
    if drivers > 8 || requests > 20000 {
        return Ok(Vec::new(alloc));
    }
    let options = WorkOptions {
        start: 1,
        drivers,
        requests,
    };
    summary(alloc, &options, &hasher.finalize())
}

#[test]
fn runs_have_the_lines_of_the_table(rt: HostRuntime) -> Result<(), Fail> {
    for (i, wanted) in LINES.iter().enumerate() {
        assert_eq!(rt;
            line(rt.alloc(), i as u32 + 1, 8)?.as_slice(),
            wanted.as_bytes()
        );
    }
    Ok(())
}

#[test]
fn a_run_of_no_requests_leaves_zeros(rt: HostRuntime) -> Result<(), Fail> {
    assert_eq!(rt;
        line(rt.alloc(), 1, 0)?.as_slice(),
        b"drivers 1 requests 0 reads 0 writes 0 flushes 0 sectors 0 digest de2f256064a0af797747c2b97505dc0b9f3df0de4f489eac731c23ae9ca9cc31\n".as_slice()
    );
    Ok(())
}

#[test]
fn the_first_request_from_one_is_a_read(rt: HostRuntime) -> Result<(), Fail> {
    let asked = request(rt.alloc(), 1, 0, 0)?;
    assert_eq!(rt; asked.kind, 0);
    assert_eq!(rt; asked.bytes.len(), 0);
    Ok(())
}
