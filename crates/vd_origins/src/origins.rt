//! The origins of a memory's bytes.

ghost use Rattle.std.specs.Prelude.{◌≡◌, ◌+◌, ◌-◌, ◌<◌, ◌≤◌, ◌^◌, ℕ, nat_lt, nat_le, if◌then◌else◌, None, OnOk, OnErr, IfOk, IfSome, IfNone};
ghost use Rattle.vd_num.specs.Number.{is_within};
ghost use Rattle.vd_model.specs.declared.memory.Origin.TheVariants.{Zero};
ghost use Rattle.vd_origins.specs.Runs.{run_origin, or_origin, origin_in, origin_at, moved_origin};

use crate::run::Run;
use std::alloc::{AllocError, Global};
use std::marker::Model;
use vd_model::Origin;
use vd_num::Range;

/// The origin of each byte of a memory of 2 to the 64th bytes.
#[derive(Drop)]
pub struct Origins {
    runs: Vec<Run>,
}

impl Model for Origins {
    ghost use Rattle.std.specs.Prelude.{List};
    ghost use Rattle.vd_origins.specs.declared.run.Run.{Run};

    ghost Value = { List Run };

    ghost view = { λ o. o.runs.items };
}

impl Origins {
    /// Zeros alone.
    pub fn new(alloc: Global) -> Origins
        ensures { (a : ℕ) → origin_at result a ≡ Zero }
    {
        Origins {
            runs: Vec::new(alloc),
        }
    }

    /// The origin of a byte.
    pub fn get(&self, at: u64) -> Origin
        ensures { result ≡ origin_at self.now at }
    {
        for run in &self.runs {
            if run.has(at) {
                return run.origin;
            }
        }
        Origin::Zero
    }

    /// Gives `len` bytes from an address on an origin, up to the end of the memory.
    pub fn set(&mut self, at: u64, len: u64, origin: Origin) -> Result<(), AllocError>
        ensures ok { OnOk result ((a : ℕ) → a < 2 ^ 64 →
            origin_at self.new a ≡ (if is_within at len a then origin else origin_at self.old a)) }
        ensures err { OnErr result (self.new ≡ self.old) }
    {
        let Some(range) = range_of(at, len) else {
            return Ok(());
        };
        let mut runs = before(&self.runs, at)?;
        push(
            &mut runs,
            Run {
                first: range.start,
                last: range.last,
                origin,
            },
        )?;
        push_behind(&mut runs, &self.runs, range.last)?;
        self.runs = runs;
        Ok(())
    }

    /// Gives `len` bytes from an address on the origins of those of another memory from `source` on, up to
    /// the end of this one.
    pub fn copy(&mut self, at: u64, len: u64, from: &Origins, source: u64) -> Result<(), AllocError>
        requires { source + len ≤ 2 ^ 64 }
        ensures ok { OnOk result ((a : ℕ) → a < 2 ^ 64
            → origin_at self.new a ≡
            (if is_within at len a then origin_at from.now (source + (a - at)) else origin_at self.old a)) }
        ensures err { OnErr result (self.new ≡ self.old) }
    {
        let Some(range) = range_of(at, len) else {
            return Ok(());
        };
        let mut runs = before(&self.runs, at)?;
        let taken = Range {
            start: source,
            last: source + (range.last - range.start),
        };
        push_moved(&mut runs, &from.runs, taken, at)?;
        push_behind(&mut runs, &self.runs, range.last)?;
        self.runs = runs;
        Ok(())
    }
}

/// The addresses of `len` bytes from this one on, up to the end of the memory.
fn range_of(at: u64, len: u64) -> Option<Range>
    ensures none { IfNone result (len ≡ 0) }
    ensures start { IfSome result (λ r. (r.start ≡ at) × (at ≤ r.last)) }
    ensures last { IfSome result (λ r. (a : ℕ) → a < 2 ^ 64 → nat_le a r.last ≡ nat_lt a (at + len)) }
    ensures len { IfSome result (λ r. r.last < at + len) }
{
    let more = len.checked_sub(1)?;
    Some(Range {
        start: at,
        last: at.saturating_add(more),
    })
}

/// What some runs have below an address.
fn before(runs: &Vec<Run>, end: u64) -> Result<Vec<Run>, AllocError>
    ensures { IfOk result (λ v. (a : ℕ) → a < 2 ^ 64 →
        origin_in v.items a ≡ (if nat_lt a end then origin_in runs.now.items a else None)) }
{
    let mut kept = Vec::new(*runs.allocator());
    if let Some(last) = end.checked_sub(1) {
        push_moved(&mut kept, runs, Range { start: 0, last }, 0)?;
    }
    Ok(kept)
}

/// Adds what some runs have above an address.
fn push_behind(into: &mut Vec<Run>, runs: &[Run], last: u64) -> Result<(), AllocError>
    ensures { OnOk result ((a : ℕ) → a < 2 ^ 64
        → origin_in into.new.items a ≡ or_origin (origin_in into.old.items a)
        (if nat_lt last a then origin_in runs.now a else None)) }
{
    if let Some(start) = last.checked_add(1) {
        let range = Range {
            start,
            last: u64::MAX,
        };
        push_moved(into, runs, range, start)?;
    }
    Ok(())
}

/// Adds what some runs have in a range, as it lies where the range is moved to begin at `to`.
fn push_moved(into: &mut Vec<Run>, runs: &[Run], range: Range, to: u64) -> Result<(), AllocError>
    ensures { OnOk result ((a : ℕ) → a < 2 ^ 64
        → origin_in into.new.items a ≡ or_origin (origin_in into.old.items a) (moved_origin runs.now range to a)) }
{
    for run in runs {
        if let Some(moved) = run.moved(range, to) {
            push(into, moved)?;
        }
    }
    Ok(())
}

/// Adds a run behind the others, joined with the last one where that is possible.
fn push(into: &mut Vec<Run>, run: Run) -> Result<(), AllocError>
    ensures { OnOk result ((a : ℕ) →
        origin_in into.new.items a ≡ or_origin (origin_in into.old.items a) (run_origin run a)) }
{
    if let Some(last) = into.pop() {
        if let Some(joined) = last.joined(&run) {
            into.push(joined)?;
            return Ok(());
        }
        into.push(last)?;
    }
    into.push(run)?;
    Ok(())
}
