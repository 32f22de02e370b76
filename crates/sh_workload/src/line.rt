//! The line that sums a run up.
ghost use Rattle.std.specs.Prelude.{◌≡◌, ◌≤◌, ◌*◌, ◌++◌, OnOk, IfOk, codes, decimal, length};
ghost use Rattle.hex.specs.Hex.{encode_lower};
ghost use Rattle.sh_workload.specs.Workload.{line_of, summary_with};

use crate::counts::Counts;
use crate::options::WorkOptions;
use itoa::Buffer;
use std::alloc::{AllocError, Global};

/// A word with the spaces around it, and a number in decimal.
fn put_count(line: &mut Vec<u8>, word: &[u8], count: u64) -> Result<(), AllocError>
    ensures { OnOk result (line.new.items ≡ line.old.items ++ word.now ++ decimal count) }
{
    let mut buffer = Buffer::new();
    line.extend_from_slice(word)?;
    line.extend_from_slice(buffer.format(count).as_bytes())
}

/// The line of a run, with the SHA-256 of its parts.
fn line_with(
    alloc: Global,
    drivers: u32,
    requests: u32,
    counts: &Counts,
    digest: &[u8; 32],
) -> Result<Vec<u8>, AllocError>
    requires { (drivers ≤ 8) × (requests ≤ 20000) }
    ensures { IfOk result (λ v. v.items ≡ line_of drivers requests counts.now digest.now) }
{
    let mut line = Vec::new(alloc);
    let mut digits = [0; 64];
    put_count(&mut line, b"drivers ", u64::from(drivers))?;
    put_count(&mut line, b" requests ", u64::from(drivers * requests))?;
    put_count(&mut line, b" reads ", counts.reads)?;
    put_count(&mut line, b" writes ", counts.writes)?;
    put_count(&mut line, b" flushes ", counts.flushes)?;
    put_count(&mut line, b" sectors ", counts.sectors)?;
    line.extend_from_slice(b" digest ")?;
    hex::encode_to_slice(digest.as_slice(), &mut digits).unwrap();
    line.extend_from_slice(&digits)?;
    line.extend_from_slice(b"\n")?;
    Ok(line)
}

/// The summary line of a run, with the SHA-256 of what its drivers left of their parts.
pub fn summary(
    alloc: Global,
    options: &WorkOptions,
    digest: &[u8; 32],
) -> Result<Vec<u8>, AllocError>
    requires { (options.now.drivers ≤ 8) × (options.now.requests ≤ 20000) }
    ensures { IfOk result (λ v. v.items ≡ summary_with options.now digest.now) }
{
    let counts = Counts::of(options.start, options.drivers, options.requests);
    line_with(alloc, options.drivers, options.requests, &counts, digest)
}
