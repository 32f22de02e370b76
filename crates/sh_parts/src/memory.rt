//! What the entries of the domain's journal leave: mappings, coherent regions and their places.
ghost use Rattle.std.specs.Prelude.{◌≡◌, ◌≤◌, ◌<◌, ◌+◌, ◌-◌, ◌*◌, ◌^◌, ℕ, List, [], IfOk, OnErr, find, filter, not, ◌==◌, nat_le, nat_lt, ◌&&◌};
ghost use Rattle.std.specs.List.{list_any};
ghost use Rattle.vd_model.specs.Acts.{Act};
ghost use Rattle.vd_model.specs.AreaTurns.{read_write};
ghost use Rattle.vd_model.specs.Live.{is_in_use};
ghost use Rattle.vd_model.specs.declared.memory.Dir.{Dir};
ghost use Rattle.sh_parts.specs.declared.entry.DomainStep.TheVariants as asks;
ghost use Rattle.sh_parts.specs.Legal.{Numbers, domain_turn};
ghost use Rattle.sh_parts.specs.Memory.{IsSound, Stands, Makes};

use crate::entry::{DomainAnswer, DomainStep};
use std::alloc::{AllocError, Global};
use vd_iova::Iova;
use vd_model::Region;
use vd_num::{Errno, Range, SLOT_SIZE, pages};
use vd_regions::Regions;

/// A live mapping or coherent region: its number, its first page, and how many pages it has.
#[derive(Clone, Copy, Debug, PartialEq, Eq)]
pub(crate) struct Live {
    number: u64,
    page: u64,
    count: u64,
}

/// The places of mappings and coherent regions, which are numbered together.
#[derive(Drop)]
pub(crate) struct Memory {
    bounce_pages: u64,
    /// The bounce pages from 1 on, and the pages behind them, with what is taken of both.
    bounce: Iova,
    coherent: Iova,
    /// The coherent regions, as a daemon sees them.
    regions: Regions,
    /// The live mappings and coherent regions, the oldest first.
    mappings: Vec<Live>,
    areas: Vec<Live>,
    /// The next number.
    next: u64,
    /// Whether something was ever mapped: from then on a daemon sees the bounce memory.
    mapped: bool,
    registered: bool,
}

/// Some pages as a daemon sees them: it may read and write them.
fn region_of(page: u64, count: u64) -> Region
    requires { (1 ≤ count) × (page + count ≤ 4096) }
    ensures { result ≡ record {
      start = 4096 * page;
      last = 4096 * (page + count) - 1;
      offset = 4096
          * page;
      perm = read_write;
    } }
{
    let start = SLOT_SIZE * page;
    Region {
        start,
        last: SLOT_SIZE * (page + count) - 1,
        offset: start,
        perm: Region::READ_WRITE,
    }
}

/// The one of this number.
fn find_live(list: &Vec<Live>, number: u64) -> Option<Live>
    ensures { result ≡ find (λ k. k.number == number) list.now.items }
{
    list.iter().copied().find(|live| live.number == number)
}

/// Takes those of this number out of the list.
fn drop_live(list: &mut Vec<Live>, number: u64)
    ensures { list.new.items ≡ filter (λ k. not (k.number == number)) list.old.items }
{
    list.retain(|live| live.number != number);
}

/// Whether one of them has this page.
fn covers(list: &Vec<Live>, page: u64) -> bool
    ensures { result ≡ list_any (λ k. nat_le k.page page && nat_lt (page - k.page) k.count) list.now.items }
{
    list.iter()
        .any(|live| live.page <= page && page - live.page < live.count)
}

impl Memory {
    /// Nothing is mapped, and nothing registered.
    pub(crate) fn new(alloc: Global, bounce_pages: u32, pages: u32) -> Result<Memory, AllocError>
        requires { (2 ≤ bounce_pages) × (bounce_pages < pages) × (pages ≤ 4096) }
        ensures sound { IfOk result IsSound }
        ensures stands { IfOk result
            (λ m. (t : ℕ) → Stands (record { bounce = bounce_pages; pages = pages; timeout = t }) []
            m) }
        ensures next { IfOk result (λ m. m.next ≡ 0) }
    {
        let bounce_pages = u64::from(bounce_pages);
        Ok(Memory {
            bounce_pages,
            bounce: Iova::new(alloc, 1, bounce_pages)?,
            coherent: Iova::new(alloc, bounce_pages, u64::from(pages))?,
            regions: Regions::new(alloc),
            mappings: Vec::new(alloc),
            areas: Vec::new(alloc),
            next: 0,
            mapped: false,
            registered: false,
        })
    }

    /// Does a step. For want of memory what is kept stays.
    pub(crate) fn answer_to(&mut self, step: DomainStep) -> Result<DomainAnswer, AllocError>
        requires sound { IsSound self.old }
        requires number { self.old.next + 1 < 2 ^ 64 }
        ensures sound { IsSound self.new }
        ensures next { self.new.next ≤ self.old.next + 1 }
        ensures makes { (x : Numbers) (done : List Act) → Stands x done self.old →
            IfOk result (λ answer. Makes x done step answer self.new) }
        ensures err { (x : Numbers) (done : List Act) → Stands x done self.old →
            OnErr result (Stands x done self.new) }
    {
        Ok(match step {
            DomainStep::Map { len, dir: _ } => self.map(len)?,
            DomainStep::Unmap { number } => self.unmap(number),
            DomainStep::Coherent { len } => self.make_region(len)?,
            DomainStep::FreeCoherent { number } => self.free_region(number),
            DomainStep::Lookup { range } => self.lookup(range),
            DomainStep::Register => self.register(),
            DomainStep::Deregister => self.deregister(),
        })
    }

    fn map(&mut self, len: u64) -> Result<DomainAnswer, AllocError>
        requires sound { IsSound self.old }
        requires number { self.old.next + 1 < 2 ^ 64 }
        ensures sound { IsSound self.new }
        ensures next { self.new.next ≤ self.old.next + 1 }
        ensures makes { (x : Numbers) (done : List Act) (dir : Dir) → Stands x done self.old →
            IfOk result (λ answer. Makes x done (asks.Map len dir) answer self.new) }
        ensures err { (x : Numbers) (done : List Act) → Stands x done self.old →
            OnErr result (Stands x done self.new) }
    {
        if len == 0 {
            return Ok(DomainAnswer::Err(Errno::Inval));
        }
        self.mappings.reserve(1)?;
        let count = pages(len);
        let Ok(page) = self.bounce.take(count) else {
            return Ok(DomainAnswer::Err(Errno::Nospc));
        };
        let number = self.next;
        self.mappings.push_reserved(Live {
            number,
            page,
            count,
        });
        self.next += 1;
        self.mapped = true;
        Ok(DomainAnswer::Mapped {
            number,
            iova: SLOT_SIZE * page,
        })
    }

    fn unmap(&mut self, number: u64) -> DomainAnswer
        requires sound { IsSound self.old }
        ensures sound { IsSound self.new }
        ensures next { self.new.next ≡ self.old.next }
        ensures makes { (x : Numbers) (done : List Act) → Stands x done self.old →
            Makes x done (asks.Unmap number) result self.new }
    {
        let Some(live) = find_live(&self.mappings, number) else {
            return DomainAnswer::Err(Errno::Noent);
        };
        drop_live(&mut self.mappings, number);
        self.bounce.give(live.page);
        DomainAnswer::Done
    }

    fn make_region(&mut self, len: u64) -> Result<DomainAnswer, AllocError>
        requires sound { IsSound self.old }
        requires number { self.old.next + 1 < 2 ^ 64 }
        ensures sound { IsSound self.new }
        ensures next { self.new.next ≤ self.old.next + 1 }
        ensures makes { (x : Numbers) (done : List Act) → Stands x done self.old →
            IfOk result (λ answer. Makes x done (asks.Coherent len) answer self.new) }
        ensures err { (x : Numbers) (done : List Act) → Stands x done self.old →
            OnErr result (Stands x done self.new) }
    {
        if len == 0 {
            return Ok(DomainAnswer::Err(Errno::Inval));
        }
        self.areas.reserve(1)?;
        let count = pages(len);
        let Ok(page) = self.coherent.take(count) else {
            return Ok(DomainAnswer::Err(Errno::Nospc));
        };
        // Pages that were free overlap no region, so only memory can be wanting.
        if self.regions.add(region_of(page, count)).is_err() {
            self.coherent.give(page);
            return Err(AllocError);
        }
        let number = self.next;
        self.areas.push_reserved(Live {
            number,
            page,
            count,
        });
        self.next += 1;
        Ok(DomainAnswer::Mapped {
            number,
            iova: SLOT_SIZE * page,
        })
    }

    fn free_region(&mut self, number: u64) -> DomainAnswer
        requires sound { IsSound self.old }
        ensures sound { IsSound self.new }
        ensures next { self.new.next ≡ self.old.next }
        ensures makes { (x : Numbers) (done : List Act) → Stands x done self.old →
            Makes x done (asks.FreeCoherent number) result self.new }
    {
        let Some(live) = find_live(&self.areas, number) else {
            return DomainAnswer::Err(Errno::Noent);
        };
        drop_live(&mut self.areas, number);
        self.coherent.give(live.page);
        self.regions.remove(SLOT_SIZE * live.page);
        DomainAnswer::Done
    }

    fn lookup(&self, range: Range) -> DomainAnswer
        requires sound { IsSound self.now }
        ensures { (x : Numbers) (done : List Act) → Stands x done self.now →
            result ≡ (domain_turn x done (asks.Lookup range)).answer }
    {
        if range.start > range.last {
            return DomainAnswer::Err(Errno::Inval);
        }
        // The bounce memory starts below every coherent region.
        if self.mapped && range.start < SLOT_SIZE * self.bounce_pages {
            return DomainAnswer::Found(region_of(0, self.bounce_pages));
        }
        match self.regions.first(range) {
            Some(region) => DomainAnswer::Found(region),
            None => DomainAnswer::Err(Errno::Inval),
        }
    }

    fn register(&mut self) -> DomainAnswer
        requires sound { IsSound self.old }
        ensures sound { IsSound self.new }
        ensures next { self.new.next ≡ self.old.next }
        ensures makes { (x : Numbers) (done : List Act) → Stands x done self.old →
            Makes x done asks.Register result self.new }
    {
        if self.registered {
            return DomainAnswer::Err(Errno::Exist);
        }
        self.registered = true;
        DomainAnswer::Done
    }

    fn deregister(&mut self) -> DomainAnswer
        requires sound { IsSound self.old }
        ensures sound { IsSound self.new }
        ensures next { self.new.next ≡ self.old.next }
        ensures makes { (x : Numbers) (done : List Act) → Stands x done self.old →
            Makes x done asks.Deregister result self.new }
    {
        if !self.registered {
            return DomainAnswer::Err(Errno::Noent);
        }
        self.registered = false;
        DomainAnswer::Done
    }

    /// Whether a live mapping has this bounce page.
    pub(crate) fn in_use(&self, page: u32) -> bool
        requires sound { IsSound self.now }
        ensures { (x : Numbers) (done : List Act) → Stands x done self.now → result ≡ is_in_use 1 done page }
    {
        covers(&self.mappings, u64::from(page))
    }
}
