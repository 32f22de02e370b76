//! Mappings and coherent regions: how they are made and given back, and how a daemon finds them.
ghost use Rattle.std.specs.Prelude.{◌≡◌, ◌≢◌, ◌≤◌, ◌+◌, ◌*◌, ◌/◌, ◌%◌, ℕ, true, false, length, vec_len, IfOk, IfErr, OnOk, OnErr};
ghost use Rattle.vd_num.specs.Number.{pages_of as pages_for};
ghost use Rattle.vd_model.specs.declared.memory.Dir.TheVariants as dir;
ghost use Rattle.sh_cells.specs.Passes.{view, pages_of, IsOf};
ghost use Rattle.sh_parts.specs.declared.entry.DomainStep.TheVariants as step;
ghost use Rattle.sh_parts.specs.declared.entry.DomainAnswer.{DomainAnswer};
ghost use Rattle.sh_device.specs.Spans.{GoesOn, with_hidden};
ghost use Rattle.sh_device.specs.Calls.{IsDomainNote, Hands, Brings, Makes, handed, found_answer};

use crate::device::Device;
use crate::held::{Held, Noted};
use crate::journals::domain_step;
use crate::span::{clear_absent, find_pages, hide_pages, read_on, show_absent, write_on};
use sh_cells::{Cells, DriverPass, Kind, Side};
use sh_parts::{Dir, DomainAnswer, DomainStep, Errno, Naming, Note, Range, Region};
use std::alloc::{AllocError, Global};
use std::sync::Wait;
use vd_num::{SLOT_SIZE, pages};

/// Why a mapping or a coherent region is refused.
#[derive(Drop)]
pub enum MapRefused<N: Naming> {
    /// The length is 0.
    Empty,
    /// There is no place for it, as the noted entry says.
    NoSpace { note: Note<N> },
    /// Memory is wanting.
    Memory,
}

/// For want of memory a mapping or a region stays.
#[derive(Drop)]
pub struct UnmapRefused<N: Naming> {
    pub held: Held<N>,
}

impl<N: Naming> Device<N> {
    ghost use Rattle.sh_device.specs.Refused.{IsRefusal};

    /// Maps a buffer of even length. Its bytes are handed over unless it is mapped from the device.
    #[tactic(auto, using(crate::proofs::Going::goes_refl))]
    pub fn map(
        &self,
        rt: &impl Wait,
        pass: &mut DriverPass,
        buffer: &[u8],
        dir: Dir,
    ) -> Result<Held<N>, MapRefused<N>>
        requires of { IsOf self.now pass.old }
        requires even { length buffer.now % 2 ≡ 0 }
        requires left { pages_for (length buffer.now) + 2 ≤ (view pass.old).left }

        ensures of { IsOf self.now pass.new }
        ensures goes { GoesOn (view pass.old) (view pass.new) }
        ensures held { IfOk result (λ h. (h.len ≡ length buffer.now) × (h.dir ≡ dir) × (h.coherent ≡ false)) }
        ensures hands { IfOk result
            (λ h. Hands (view pass.old) h.number h.iova (pages_for h.len) (handed dir buffer.now)
            h.stamp (view pass.new)) }
        ensures refused { IfErr result (IsRefusal N.numbers (step.Map (length buffer.now) dir)
            (length buffer.now)) }
        ensures some { OnOk result (1 ≤ length buffer.now) }
        ensures same { OnErr result (view pass.new ≡ view pass.old) }
    {
        let len = buffer.len() as u64;
        if len == 0 {
            return Err(MapRefused::Empty);
        }
        let _switch = self.domain.switch.read(rt);
        let Ok(noted) = domain_step(rt, &self.domain, DomainStep::Map { len, dir }) else {
            return Err(MapRefused::Memory);
        };
        let Noted { value, note } = noted;
        let DomainAnswer::Mapped { number, iova } = value else {
            return Err(MapRefused::NoSpace { note });
        };
        let bytes = match dir {
            Dir::From => &[],
            _ => buffer,
        };
        let stamp = hand_all(&self.cells, pass, number, iova, pages(len), bytes);
        Ok(Held {
            note,
            number,
            iova,
            len,
            dir,
            stamp,
            coherent: false,
        })
    }

    /// Takes a mapping back. The bytes of one from the device or both ways come back into the buffer,
    /// which has the mapping's length; one to the device leaves it. For want of memory the mapping
    /// and the buffer stay.
    #[tactic(auto, using(crate::proofs::Going::goes_refl))]
    pub fn unmap(
        &self,
        rt: &impl Wait,
        pass: &mut DriverPass,
        held: Held<N>,
        buffer: &mut [u8],
    ) -> Result<Note<N>, UnmapRefused<N>>
        requires of { IsOf self.now pass.old }
        requires held { (held.coherent ≡ false) × (length buffer.old ≡ held.len) }

        ensures of { IsOf self.now pass.new }
        ensures goes { GoesOn (view pass.old) (view pass.new) }
        ensures noted { IfOk result
            (λ n. (a : DomainAnswer) × IsDomainNote N.numbers n (step.Unmap held.number) a) }
        ensures to { held.dir ≡ dir.To → (buffer.new ≡ buffer.old) × (view pass.new ≡ view pass.old) }
        ensures brings { held.dir ≢ dir.To →
            OnOk result (Brings (view pass.old) held.iova buffer.new (view pass.new)) }
        ensures refused { IfErr result (λ e. (e.held ≡ held) × (buffer.new ≡ buffer.old)) }
    {
        let _switch = self.domain.switch.read(rt);
        let step = DomainStep::Unmap {
            number: held.number,
        };
        if matches!(held.dir, Dir::To) {
            let Ok(noted) = domain_step(rt, &self.domain, step) else {
                return Err(UnmapRefused { held });
            };
            let Noted { value: _, note } = noted;
            return Ok(note);
        }
        // The bytes are read while the mapping is live.
        let Ok(copy) = brought(self.alloc, &self.cells, pass, held.iova, buffer.len()) else {
            return Err(UnmapRefused { held });
        };
        // The entry comes before the buffer is filled: for want of memory the buffer stays.
        let Ok(noted) = domain_step(rt, &self.domain, step) else {
            return Err(UnmapRefused { held });
        };
        buffer.copy_from_slice(copy.as_slice());
        let Noted { value: _, note } = noted;
        Ok(note)
    }

    /// Makes a coherent region of so many bytes, of zeros on the first sides of its pages.
    #[tactic(auto, using(crate::proofs::Going::goes_refl))]
    pub fn coherent(
        &self,
        rt: &impl Wait,
        pass: &mut DriverPass,
        len: u64,
    ) -> Result<Held<N>, MapRefused<N>>
        requires of { IsOf self.now pass.old }
        requires left { pages_for len ≤ (view pass.old).left }

        ensures of { IsOf self.now pass.new }
        ensures goes { GoesOn (view pass.old) (view pass.new) }
        ensures held { IfOk result (λ h. (h.len ≡ len) × (h.dir ≡ dir.Both) × (h.coherent ≡ true)) }
        ensures makes { IfOk result
            (λ h. Makes (view pass.old) (h.iova / 4096) (pages_for len) (view pass.new)) }
        ensures refused { IfErr result (IsRefusal N.numbers (step.Coherent len) len) }
        ensures some { OnOk result (1 ≤ len) }
        ensures same { OnErr result (view pass.new ≡ view pass.old) }
    {
        if len == 0 {
            return Err(MapRefused::Empty);
        }
        let Ok(noted) = domain_step(rt, &self.domain, DomainStep::Coherent { len }) else {
            return Err(MapRefused::Memory);
        };
        let Noted { value, note } = noted;
        let DomainAnswer::Mapped { number, iova } = value else {
            return Err(MapRefused::NoSpace { note });
        };
        clear_region(&self.cells, pass, iova, pages(len));
        Ok(Held {
            note,
            number,
            iova,
            len,
            dir: Dir::Both,
            stamp: 0,
            coherent: true,
        })
    }

    /// Frees a coherent region, whose pages become absent. For want of memory it stays.
    #[tactic(auto, using(crate::proofs::Going::goes_refl, crate::proofs::Going::goes_hidden))]
    pub fn free(
        &self,
        rt: &impl Wait,
        pass: &mut DriverPass,
        held: Held<N>,
    ) -> Result<Note<N>, UnmapRefused<N>>
        requires of { IsOf self.now pass.old }
        requires held { held.coherent ≡ true }

        ensures of { IsOf self.now pass.new }
        ensures goes { GoesOn (view pass.old) (view pass.new) }
        ensures noted { IfOk result
            (λ n. (a : DomainAnswer) × IsDomainNote N.numbers n (step.FreeCoherent held.number) a) }
        ensures hides { OnOk result (view pass.new
            ≡ with_hidden (view pass.old) (held.iova / 4096) (pages_for held.len)) }
        ensures refused { IfErr result (λ e. e.held ≡ held) }
        ensures same { OnErr result (view pass.new ≡ view pass.old) }
    {
        let mut guard = self.domain.state.lock(rt);
        let state = &mut *guard;
        let step = DomainStep::FreeCoherent {
            number: held.number,
        };
        let Ok(_) = state.apply(step) else {
            return Err(UnmapRefused { held });
        };
        // Under the lock: another thread may get these pages as soon as it is free.
        hide_pages(&self.cells, pass, held.iova / SLOT_SIZE, pages(held.len));
        Ok(state.note())
    }

    /// The first of the regions that a daemon may see which meets the range, or why there is none.
    pub fn lookup(
        &self,
        rt: &impl Wait,
        range: Range,
    ) -> Result<Noted<Result<Region, Errno>, N>, AllocError>
        ensures { IfOk result (λ n. IsDomainNote N.numbers n.note (step.Lookup range)
            (found_answer n.value)) }
    {
        let Noted { value, note } = domain_step(rt, &self.domain, DomainStep::Lookup { range })?;
        let value = match value {
            DomainAnswer::Found(region) => Ok(region),
            DomainAnswer::Err(errno) => Err(errno),
            _ => unreachable!(),
        };
        Ok(Noted { value, note })
    }
}

/// Hands the bytes of a mapping: clears the pages that were absent, draws its entry and puts it, and
/// makes those pages present.
fn hand(
    cells: &Cells,
    pass: &mut DriverPass,
    number: u64,
    iova: u64,
    bytes: &[u8],
    found: &mut [Option<Side>],
) -> u64
    requires of { IsOf cells.now pass.old }
    requires left { length found.old + 1 ≤ (view pass.old).left }
    requires even { (iova % 4096 ≡ 0) × (length bytes.now % 2 ≡ 0) }
    requires inside { iova + 4096 * length found.old ≤ 4096 * pages_of cells.now }
    requires fits { length bytes.now ≤ 4096 * length found.old }

    ensures of { IsOf cells.now pass.new }
    ensures hands { Hands (view pass.old) number iova (length found.old) bytes.now result (view pass.new) }
{
    let page = iova / SLOT_SIZE;
    find_pages(cells, pass, page, found);
    clear_absent(cells, pass, page, found);
    let kind = Kind::Handed { mapping: number };
    let stamp = write_on(cells, pass, found, kind, iova, bytes);
    show_absent(cells, pass, page, found);
    stamp
}

/// Hands the bytes of a mapping of so many pages.
fn hand_all(
    cells: &Cells,
    pass: &mut DriverPass,
    number: u64,
    iova: u64,
    count: u64,
    bytes: &[u8],
) -> u64
    requires of { IsOf cells.now pass.old }
    requires left { count + 1 ≤ (view pass.old).left }
    requires even { (iova % 4096 ≡ 0) × (length bytes.now % 2 ≡ 0) }
    requires inside { (iova + 4096 * count ≤ 4096 * pages_of cells.now) × (count ≤ 4096) }
    requires fits { length bytes.now ≤ 4096 * count }

    ensures of { IsOf cells.now pass.new }
    ensures hands { Hands (view pass.old) number iova count bytes.now result (view pass.new) }
{
    if count <= 2 {
        let mut table = [None; 2];
        return hand(
            cells,
            pass,
            number,
            iova,
            bytes,
            &mut table[..count as usize],
        );
    }
    let mut table = [None; 4096];
    hand(
        cells,
        pass,
        number,
        iova,
        bytes,
        &mut table[..count as usize],
    )
}

/// Reads the words of a mapping, each on the side of its page, and on the first where it is absent.
fn bring(
    cells: &Cells,
    pass: &mut DriverPass,
    iova: u64,
    out: &mut [u8],
    found: &mut [Option<Side>],
)
    requires of { IsOf cells.now pass.old }
    requires even { (iova % 4096 ≡ 0) × (length out.old % 2 ≡ 0) }
    requires inside { iova + 4096 * length found.old ≤ 4096 * pages_of cells.now }
    requires size { length found.old ≡ pages_for (length out.old) }

    ensures of { IsOf cells.now pass.new }
    ensures brings { Brings (view pass.old) iova out.new (view pass.new) }
{
    find_pages(cells, pass, iova / SLOT_SIZE, found);
    read_on(cells, pass, found, iova, out);
}

/// Reads the words of a mapping.
fn bring_all(cells: &Cells, pass: &mut DriverPass, iova: u64, out: &mut [u8])
    requires of { IsOf cells.now pass.old }
    requires even { (iova % 4096 ≡ 0) × (length out.old % 2 ≡ 0) }
    requires inside { (iova + 4096 * pages_for (length out.old) ≤ 4096 * pages_of cells.now)
        × (pages_of cells.now ≤ 4096) }

    ensures of { IsOf cells.now pass.new }
    ensures brings { Brings (view pass.old) iova out.new (view pass.new) }
{
    let count = pages(out.len() as u64);
    if count <= 2 {
        let mut table = [None; 2];
        return bring(cells, pass, iova, out, &mut table[..count as usize]);
    }
    let mut table = [None; 4096];
    bring(cells, pass, iova, out, &mut table[..count as usize]);
}

/// The bytes of a mapping, read into a list of its own.
fn brought(
    alloc: Global,
    cells: &Cells,
    pass: &mut DriverPass,
    iova: u64,
    len: usize,
) -> Result<Vec<u8>, AllocError>
    requires of { IsOf cells.now pass.old }
    requires even { (iova % 4096 ≡ 0) × (len % 2 ≡ 0) }
    requires inside { (iova + 4096 * pages_for len ≤ 4096 * pages_of cells.now)
        × (pages_of cells.now ≤ 4096) }

    ensures of { IsOf cells.now pass.new }
    ensures brings { IfOk result (λ v. Brings (view pass.old) iova v.items (view pass.new)) }
    ensures len { IfOk result (λ v. vec_len v ≡ len) }
    ensures same { OnErr result (view pass.new ≡ view pass.old) }
{
    let mut bytes = vec![in alloc; 0u8; len]?;
    bring_all(cells, pass, iova, bytes.as_mut_slice());
    Ok(bytes)
}

/// Clears the pages of a coherent region, and makes them present on their first sides.
fn clear_region(cells: &Cells, pass: &mut DriverPass, iova: u64, count: u64)
    requires of { IsOf cells.now pass.old }
    requires left { count ≤ (view pass.old).left }
    requires inside { (iova % 4096 ≡ 0) × (iova + 4096 * count ≤ 4096 * pages_of cells.now) × (count ≤ 4096) }

    ensures of { IsOf cells.now pass.new }
    ensures clears { Makes (view pass.old) (iova / 4096) count (view pass.new) }
{
    let table = [None; 4096];
    let found = &table[..count as usize];
    clear_absent(cells, pass, iova / SLOT_SIZE, found);
    show_absent(cells, pass, iova / SLOT_SIZE, found);
}
