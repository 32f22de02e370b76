//! Access to the memory: a daemon's loads and stores, and a driver's reads and writes of a coherent
//! region. None of these calls waits, takes a lock or takes memory.
ghost use Rattle.std.specs.Prelude.{◌≡◌, ◌≤◌, ◌<◌, ℕ, ◌+◌, ◌*◌, ◌/◌, ◌%◌, true, [], length, take, min, IfOk, IfErr, OnErr, IfSome, IfNone, None, IsSome, All, slice_index_or};
ghost use Rattle.vd_num.specs.Number.{pages_of as pages_for};
ghost use Rattle.sh_cells.specs.declared.word.Kind.TheVariants as kind;
ghost use Rattle.sh_cells.specs.Passes.{view, pages_of, IsOf};
ghost use Rattle.sh_device.specs.Spans.{GoesOn, with_found, with_bytes};
ghost use Rattle.sh_device.specs.Calls.{Reads, Loads, Stores, Misses};

use crate::device::Device;
use crate::held::Held;
use crate::span::{find_pages, read_on, write_on};
use sh_cells::{DaemonPass, DriverPass, Kind, Pass, Side};
use sh_parts::Naming;
use vd_num::{Bus, SLOT_SIZE};

/// The first page that was absent.
fn first_absent(found: &[Option<Side>]) -> Option<usize>
    ensures some { IfSome result
        (λ k. (k < length found.now) × (slice_index_or found.now k None ≡ None)
        × ((i : ℕ) → i < k → IsSome (slice_index_or found.now i None))) }
    ensures none { IfNone result (All IsSome found.now) }
{
    let mut k = 0;
    while k < found.len() {
        if found[k].is_none() {
            return Some(k);
        }
        k += 1;
    }
    None
}

impl<N: Naming> Device<N> {
    /// Loads bytes, each two of them a word on the side that its page word says. Answers the least
    /// stamp of the words, or the first address that is absent or outside the memory; then `out`
    /// stays. The address and the length are even.
    #[tactic(auto, using(crate::proofs::Going::goes_misses))]
    pub fn load<P: Pass>(&self, pass: &mut P, at: u64, out: &mut [u8]) -> Result<u64, Bus>
        requires of { IsOf self.now (P.token pass.old) }
        requires even { (at % 2 ≡ 0) × (length out.old % 2 ≡ 0) × (1 ≤ length out.old) }

        ensures of { IsOf self.now (P.token pass.new) }
        ensures goes { GoesOn (view (P.token pass.old)) (view (P.token pass.new)) }
        ensures loads { IfOk result
            (λ least. Loads (view (P.token pass.old)) at out.new least (view (P.token pass.new))) }
        ensures bus { IfErr result
            (λ bus. Misses (4096 * pages_of self.now) (view (P.token pass.old)) at (length out.old)
            bus.at (view (P.token pass.new))) }
        ensures same { OnErr result (out.new ≡ out.old) }
    {
        // A range of at most a page meets two pages.
        if out.len() <= 4096 {
            let mut found = [None; 2];
            return self.load_by(pass, at, out, &mut found);
        }
        let mut found = [None; 4096];
        self.load_by(pass, at, out, &mut found)
    }

    /// Stores bytes as one entry of a daemon, each two of them a word on the side that its page word
    /// says. Answers the entry's stamp, or the first address that is absent or outside the memory;
    /// then nothing is stored. The address and the length are even.
    #[tactic(auto, using(crate::proofs::Going::goes_misses))]
    pub fn store(&self, pass: &mut DaemonPass, at: u64, bytes: &[u8]) -> Result<u64, Bus>
        requires of { IsOf self.now pass.old }
        requires left { 1 ≤ (view pass.old).left }
        requires even { (at % 2 ≡ 0) × (length bytes.now % 2 ≡ 0) × (1 ≤ length bytes.now) }

        ensures of { IsOf self.now pass.new }
        ensures goes { GoesOn (view pass.old) (view pass.new) }
        ensures stores { IfOk result (λ stamp. Stores (view pass.old) at bytes.now stamp (view pass.new)) }
        ensures bus { IfErr result
            (λ bus. Misses (4096 * pages_of self.now) (view pass.old) at (length bytes.now) bus.at
            (view pass.new)) }
    {
        if bytes.len() <= 4096 {
            let mut found = [None; 2];
            return self.store_by(pass, at, bytes, &mut found);
        }
        let mut found = [None; 4096];
        self.store_by(pass, at, bytes, &mut found)
    }

    /// Reads bytes of a coherent region, on the first sides of its pages, and answers the least stamp
    /// of their words. The offset and the length are even.
    pub fn read(&self, pass: &mut DriverPass, held: &Held<N>, offset: u64, out: &mut [u8]) -> u64
        requires of { IsOf self.now pass.old }
        requires coherent { held.now.coherent ≡ true }
        requires even { (offset % 2 ≡ 0) × (length out.old % 2 ≡ 0) × (1 ≤ length out.old) }
        requires inside { offset + length out.old ≤ 4096 * pages_for held.now.len }

        ensures of { IsOf self.now pass.new }
        ensures goes { GoesOn (view pass.old) (view pass.new) }
        ensures reads { Reads [] (view pass.old) (held.now.iova + offset) out.new result (view pass.new) }
    {
        read_on(&self.cells, pass, &[], held.iova + offset, out)
    }

    /// Writes bytes of a coherent region as one entry, on the first sides of its pages, and answers
    /// its stamp. The offset and the length are even.
    pub fn write(&self, pass: &mut DriverPass, held: &Held<N>, offset: u64, bytes: &[u8]) -> u64
        requires of { IsOf self.now pass.old }
        requires left { 1 ≤ (view pass.old).left }
        requires coherent { held.now.coherent ≡ true }
        requires even { (offset % 2 ≡ 0) × (length bytes.now % 2 ≡ 0) × (1 ≤ length bytes.now) }
        requires inside { offset + length bytes.now ≤ 4096 * pages_for held.now.len }

        ensures of { IsOf self.now pass.new }
        ensures goes { GoesOn (view pass.old) (view pass.new) }
        ensures gained { view pass.new
            ≡ with_bytes (view pass.old) result (kind.Handed held.now.number) []
            (held.now.iova + offset) bytes.now }
    {
        let kind = Kind::Handed {
            mapping: held.number,
        };
        write_on(&self.cells, pass, &[], kind, held.iova + offset, bytes)
    }

    /// A load, whose page words go into the table.
    #[tactic(auto, using(crate::proofs::Going::goes_misses))]
    fn load_by<P: Pass>(
        &self,
        pass: &mut P,
        at: u64,
        out: &mut [u8],
        found: &mut [Option<Side>],
    ) -> Result<u64, Bus>
        requires of { IsOf self.now (P.token pass.old) }
        requires even { (at % 2 ≡ 0) × (length out.old % 2 ≡ 0) × (1 ≤ length out.old) }
        requires table { min 16777216 (length out.old + 4096) ≤ 4096 * length found.old }

        ensures of { IsOf self.now (P.token pass.new) }
        ensures goes { GoesOn (view (P.token pass.old)) (view (P.token pass.new)) }
        ensures loads { IfOk result
            (λ least. Loads (view (P.token pass.old)) at out.new least (view (P.token pass.new))) }
        ensures bus { IfErr result
            (λ bus. Misses (4096 * pages_of self.now) (view (P.token pass.old)) at (length out.old)
            bus.at (view (P.token pass.new))) }
        ensures same { OnErr result (out.new ≡ out.old) }
    {
        let count = self.find_range(pass, at, out.len() as u64, found)?;
        Ok(read_on(&self.cells, pass, &found[..count], at, out))
    }

    /// A store, whose page words go into the table.
    #[tactic(auto, using(crate::proofs::Going::goes_misses))]
    fn store_by(
        &self,
        pass: &mut DaemonPass,
        at: u64,
        bytes: &[u8],
        found: &mut [Option<Side>],
    ) -> Result<u64, Bus>
        requires of { IsOf self.now pass.old }
        requires left { 1 ≤ (view pass.old).left }
        requires even { (at % 2 ≡ 0) × (length bytes.now % 2 ≡ 0) × (1 ≤ length bytes.now) }
        requires table { min 16777216 (length bytes.now + 4096) ≤ 4096 * length found.old }

        ensures of { IsOf self.now pass.new }
        ensures goes { GoesOn (view pass.old) (view pass.new) }
        ensures stores { IfOk result (λ stamp. Stores (view pass.old) at bytes.now stamp (view pass.new)) }
        ensures bus { IfErr result
            (λ bus. Misses (4096 * pages_of self.now) (view pass.old) at (length bytes.now) bus.at
            (view pass.new)) }
    {
        let count = self.find_range(pass, at, bytes.len() as u64, found)?;
        let found = &found[..count];
        Ok(write_on(&self.cells, pass, found, Kind::Daemon, at, bytes))
    }

    /// Looks at the pages of a range, whose page words go into the table. Answers how many there are,
    /// or the first address that is absent or outside the memory.
    fn find_range<P: Pass>(
        &self,
        pass: &mut P,
        at: u64,
        len: u64,
        found: &mut [Option<Side>],
    ) -> Result<usize, Bus>
        requires of { IsOf self.now (P.token pass.old) }
        requires len { 1 ≤ len }
        requires table { min 16777216 (len + 4096) ≤ 4096 * length found.old }

        ensures of { IsOf self.now (P.token pass.new) }
        ensures inside { IfOk result
            (λ count. (at + len ≤ 4096 * pages_of self.now) × (count ≤ length found.new)) }
        ensures covers { IfOk result (λ count. at + len ≤ 4096 * (at / 4096 + count)) }
        ensures found { IfOk result
            (λ count. view (P.token pass.new)
            ≡ with_found (view (P.token pass.old)) (at / 4096) (take count found.new)) }
        ensures present { IfOk result (λ count. All IsSome (take count found.new)) }
        ensures bus { IfErr result
            (λ bus. Misses (4096 * pages_of self.now) (view (P.token pass.old)) at len bus.at
            (view (P.token pass.new))) }
    {
        if at >= self.size {
            return Err(Bus { at });
        }
        let first = at / SLOT_SIZE;
        let end = len.min(self.size - at) + at;
        let count = (end.div_ceil(SLOT_SIZE) - first) as usize;
        let found = &mut found[..count];
        find_pages(&self.cells, pass, first, found);
        if let Some(k) = first_absent(found) {
            let page = SLOT_SIZE * (first + k as u64);
            return Err(Bus { at: page.max(at) });
        }
        if len > self.size - at {
            return Err(Bus { at: self.size });
        }
        Ok(count)
    }
}
