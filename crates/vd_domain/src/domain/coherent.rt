//! Coherent regions: memory that a device's driver and its daemon share.

ghost use Rattle.std.specs.Prelude.{◌≡◌, ◌+◌, ◌-◌, ◌*◌, ◌/◌, ◌<◌, ◌≤◌, ◌^◌, ◌↔◌, ◌&&◌, ◌==◌, not, ℕ, List, ◌∷◌, length, if◌then◌else◌, true, is_some, Some, None, IfSome, IfOk, OnErr, IsErr, MatchResult, ◌⊎◌, map};
ghost use Rattle.std.specs.List.{All};
ghost use Rattle.std.specs.Option.{option_map};
ghost use Rattle.vd_num.specs.Number.{is_within, pages_of};
ghost use Rattle.vd_pool.specs.Memory.{PoolMemory};
ghost use Rattle.vd_model.specs.Setting.{Setting};
ghost use Rattle.vd_model.specs.Acts.{Act, Driver, Coherent, Region_made, Region_freed};
ghost use Rattle.vd_model.specs.Live.{regions};
ghost use Rattle.vd_model.specs.AreaTurns.{daemon_regions, first_region, region_of};
ghost use Rattle.vd_model.specs.Place.{place_of, taken_slots};
ghost use Rattle.vd_bounce.specs.Frames.{frame_of, Holds, Keeps};
ghost use Rattle.vd_bounce.specs.Bounce as b;
ghost use Rattle.vd_bounce.specs.Bounce.{SameShape, page_size, value};
ghost use Rattle.vd_iova.specs.Space.{taken_at};
ghost use Rattle.vd_domain.specs.Held.{SameCounts, bounce_slots, coherent_of, has_slot};
ghost use Rattle.vd_domain.specs.Lists.{region_at, regions_of};
ghost use Rattle.vd_domain.specs.Lookup.{Lies, lower_or};
ghost use Rattle.vd_domain.specs.Handed.{coherent_made, range_of, region_place};

use crate::access::end_of;
use crate::booking::enroll;
use crate::domain::{Domain, NotLive};
use crate::pages::{Pages, hold};
use crate::streaming::Extent;
use vd_bounce::BounceMap;
use vd_iova::{Full, Iova};
use vd_model::{MapError, Mapping, Region};
use vd_num::{Errno, Range, SLOT_SIZE, pages};
use vd_pool::Pool;

impl Domain {
    ghost use Rattle.vd_domain.specs.Stands.{Stands};

    /// Makes a coherent region of whole slots of zeros.
    pub fn alloc_coherent(&mut self, len: u64) -> Result<Mapping, MapError>
        requires made { self.old.made < 2 ^ 62 }
        ensures ok { (x : Setting) (acts : List Act) (m : PoolMemory) → Stands x acts self.old m
            → IfOk result (λ r. Stands x (Driver (Region_made (coherent_made r len)) ∷ acts) self.new m) }
        ensures place { (x : Setting) (acts : List Act) (m : PoolMemory) → Stands x acts self.old m → IfOk result (λ r.
            (r.number ≡ regions acts) × (r.iova ≡ 4096 * (r.iova / 4096))
            × (place_of (taken_slots acts) (pages_of len) x.bounce x.iova ≡ Some (r.iova / 4096))) }
        ensures full { (x : Setting) (acts : List Act) (m : PoolMemory) → Stands x acts self.old m → 0 < len
            → result ≡ Err MapError.NoSpace ↔ (place_of (taken_slots acts) (pages_of len) x.bounce x.iova ≡ None) }
        ensures empty { result ≡ Err MapError.Empty ↔ (len ≡ 0) }
        ensures err { (x : Setting) (acts : List Act) (m : PoolMemory) → Stands x acts self.old m →
            OnErr result (Stands x acts self.new m) }
        ensures same { OnErr result (self.new ≡ record self.old { store = self.new.store }) }
        ensures bounce { self.new.bounce ≡ self.old.bounce }
        ensures counts { (self.new.maps ≡ self.old.maps) × (self.new.made ≤ self.old.made + 1) }
    {
        if len == 0 {
            return Err(MapError::Empty);
        }
        let n = pages(len);
        let slot = match self.high.take(n) {
            Ok(slot) => slot,
            Err(Full) => return Err(MapError::NoSpace),
        };
        match enroll(&mut self.regions, &mut self.store, n, Extent { slot, len }) {
            Some(number) => {
                let pages = pages_in(&self.bounce, Extent { slot, len });
                hold(&mut self.shared, &mut self.store, pages);
                Ok(Mapping {
                    number,
                    iova: SLOT_SIZE * slot,
                })
            }
            None => {
                self.high.give(slot);
                Err(MapError::Memory)
            }
        }
    }

    /// Ends a coherent region.
    pub fn free_coherent(&mut self, number: u64) -> Result<(), NotLive>
        ensures none { IsErr result ↔ (coherent_of self.old number ≡ None) }
        ensures ok { (x : Setting) (acts : List Act) (m : PoolMemory) (r : Coherent) →
            coherent_of self.old number ≡ Some r → Stands x acts self.old m
            → Stands x (Driver (Region_freed r) ∷ acts) self.new m }
        ensures absent { (r : Coherent) (p : ℕ) → coherent_of self.old number ≡ Some r →
            has_slot (bounce_slots self.old + p) r ≡ true →
            frame_of self.new.shared.frames p ≡ None }
        ensures err { OnErr result (self.new ≡ self.old) }
        ensures bounce { self.new.bounce ≡ self.old.bounce }
        ensures counts { SameCounts self.old self.new }
    {
        let region = match self.region(number) {
            Some(region) => region,
            None => return Err(NotLive),
        };
        let (shared, store) = (&mut self.shared, &mut self.store);
        give_back(&self.bounce, shared, store, &mut self.high, region);
        self.regions.remove(number);
        Ok(())
    }

    /// Takes the coherent region back that was made last, as if it hadn't been made.
    pub fn undo_coherent(&mut self, number: u64)
        requires live { is_some (coherent_of self.old number) ≡ true }
        requires last { number + 1 ≡ self.old.made }
        ensures undone { (x : Setting) (acts : List Act) (m : PoolMemory) (r : Coherent) →
            coherent_of self.old number ≡ Some r
            → Stands x (Driver (Region_made r) ∷ acts) self.old m → Stands x acts self.new m }
        ensures bounce { self.new.bounce ≡ self.old.bounce }
        ensures counts { (self.new.maps ≡ self.old.maps) × (self.new.made + 1 ≡ self.old.made) }
    {
        let region = match self.region(number) {
            Some(region) => region,
            None => unreachable!(),
        };
        let (shared, store) = (&mut self.shared, &mut self.store);
        give_back(&self.bounce, shared, store, &mut self.high, region);
        self.regions.undo();
    }

    /// The addresses of a coherent region, or none where it isn't live.
    pub fn coherent(&self, number: u64) -> Option<Range>
        ensures { result ≡ option_map range_of (coherent_of self.now number) }
    {
        match self.region(number) {
            Some(r) => Some(Range {
                start: SLOT_SIZE * r.slot,
                last: SLOT_SIZE * (r.slot + pages(r.len)) - 1,
            }),
            None => None,
        }
    }

    /// The address of some bytes of a coherent region, or why there is none: it isn't live, or they aren't within its
    /// slots.
    pub fn place_in(&self, number: u64, offset: u64, len: u64) -> Result<u64, Errno>
        ensures { result ≡ region_place (coherent_of self.now number) offset len }
    {
        let region = match self.region(number) {
            Some(region) => region,
            None => return Err(Errno::Noent),
        };
        let size = SLOT_SIZE * pages(region.len);
        if offset > size || len > size - offset {
            return Err(Errno::Inval);
        }
        Ok(SLOT_SIZE * region.slot + offset)
    }

    /// What is kept of a live region.
    fn region(&self, number: u64) -> Option<Extent>
        ensures live { coherent_of self.now number ≡ option_map (λ r. region_at (number, r)) result }
        ensures inside { IfSome result (λ r. (0 < pages_of r.len) × (r.slot + pages_of r.len ≤ 65536)) }
    {
        self.regions.get(number)
    }

    /// The region of least start that overlaps a range.
    pub fn lookup(&self, range: Range) -> Result<Region, Errno>
        ensures found { (x : Setting) (acts : List Act) (m : PoolMemory) → Stands x acts self.now m → MatchResult result
            (λ r. (range.start ≤ range.last) × (first_region (daemon_regions x acts) range.start range.last ≡ Some r))
            (λ e. (e ≡ Errno.Inval)
            × ((range.last < range.start) ⊎ (first_region (daemon_regions x acts) range.start range.last ≡ None))) }
    {
        if range.last < range.start {
            return Err(Errno::Inval);
        }
        let end = end_of(&self.bounce);
        // It begins at 0, so no region that overlaps the range starts below it.
        if self.is_shown && range.start < end {
            return Ok(Region {
                start: 0,
                last: end - 1,
                offset: 0,
                perm: 3,
            });
        }
        match first_in(self.regions.by_number(), range) {
            Some(region) => Ok(region),
            None => Err(Errno::Inval),
        }
    }
}

/// The coherent region of least start that overlaps a range.
fn first_in(extents: &[(u64, Extent)], range: Range) -> Option<Region>
    requires { All (λ e. Lies e.1) extents.now }
    ensures { result ≡ first_region (map region_of (regions_of extents.now)) range.start range.last }
{
    let mut lowest = None;
    for entry in extents {
        let region = whole(entry.1);
        if region.start <= range.last && range.start <= region.last {
            lowest = lower(lowest, region);
        }
    }
    lowest
}

/// The region of an extent, in whole slots.
fn whole(extent: Extent) -> Region
    requires { Lies extent }
    ensures { (number : ℕ) → result ≡ region_of (region_at (number, extent)) }
{
    let start = SLOT_SIZE * extent.slot;
    Region {
        start,
        last: start + SLOT_SIZE * pages(extent.len) - 1,
        offset: start,
        perm: 3,
    }
}

/// The lower of two regions, the first where they start at the same address.
fn lower(first: Option<Region>, region: Region) -> Option<Region>
    ensures { result ≡ lower_or first (Some region) }
{
    match first {
        Some(first) if first.start <= region.start => Some(first),
        _ => Some(region),
    }
}

/// Where the slots of a region are in coherent memory, which begins behind bounce memory.
fn pages_in(bounce: &BounceMap, region: Extent) -> Pages
    requires low { bounce.now.per_page * length bounce.now.frames ≤ region.slot }
    requires small { region.slot ≤ 65536 }
    ensures { result ≡ record {
      first = region.slot - bounce.now.per_page * length
          bounce.now.frames;
      count = pages_of region.len;
    } }
{
    let base = bounce.per_page() as u64 * bounce.pages() as u64;
    Pages {
        first: (region.slot - base) as usize,
        count: pages(region.len) as usize,
    }
}

/// Gives the slots of a region back, and their frames.
fn give_back(
    bounce: &BounceMap,
    shared: &mut BounceMap,
    store: &mut Pool,
    high: &mut Iova,
    region: Extent,
)
    requires holds { Holds shared.old.frames store.old }
    requires low { bounce.now.per_page * length bounce.now.frames ≤ region.slot }
    requires range { region.slot - bounce.now.per_page * length bounce.now.frames + pages_of
        region.len ≤ length shared.old.frames }
    requires small { (region.slot ≤ 65536) × (length shared.old.frames < 2 ^ 32) }
    requires taken { 0 < taken_at high.old region.slot }
    ensures kept { Keeps shared.old.frames shared.new.frames store.old store.new }
    ensures bytes { (a : ℕ) → value shared.new store.new (b.Iova a)
        ≡ (if is_within (region.slot - bounce.now.per_page * length bounce.now.frames) (pages_of region.len)
        (a / page_size shared.old)
        then 0 else value shared.old store.old (b.Iova a)) }
    ensures frames { (p : ℕ) → is_some (frame_of shared.new.frames p)
        ≡ (not (is_within (region.slot - bounce.now.per_page * length bounce.now.frames)
        (pages_of region.len) p) && is_some (frame_of shared.old.frames p)) }
    ensures same { SameShape shared.old shared.new }
    ensures space { (high.new.first ≡ high.old.first) × (high.new.«end» ≡ high.old.«end»)
        × ((q : ℕ) → taken_at high.new q ≡ (if q == region.slot then 0 else taken_at high.old q)) }
{
    let pages = pages_in(bounce, region);
    release(shared, store, pages);
    high.give(region.slot);
}

/// Gives the frames of some pages back.
fn release(map: &mut BounceMap, pool: &mut Pool, pages: Pages)
    requires holds { Holds map.old.frames pool.old }
    requires range { pages.first + pages.count ≤ length map.old.frames }
    requires small { length map.old.frames < 2 ^ 32 }
    ensures kept { Keeps map.old.frames map.new.frames pool.old pool.new }
    ensures bytes { (a : ℕ) → value map.new pool.new (b.Iova a)
        ≡ (if is_within pages.first pages.count (a / page_size map.old) then 0 else value map.old pool.old (b.Iova a)) }
    ensures frames { (p : ℕ) →
        is_some (frame_of map.new.frames p)
        ≡ (not (is_within pages.first pages.count p) && is_some (frame_of map.old.frames p)) }
    ensures same { SameShape map.old map.new }
{
    for page in pages.first..pages.first + pages.count {
        map.drop_page(pool, page as u32);
    }
}
