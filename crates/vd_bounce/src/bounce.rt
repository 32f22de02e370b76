//! The bounce memory of a device, and its daemon's area.

ghost use Rattle.std.specs.Prelude.{◌≡◌, ◌+◌, ◌-◌, ◌*◌, ◌/◌, ◌<◌, ◌≤◌, ◌^◌, ◌↔◌, ◌==◌, ◌||◌, ◌&&◌, not, is_some, ℕ, List, [], Bool, length, slice_index, slice_index_or, if◌then◌else◌, IfOk, OnOk, OnErr, None, Some, unwrap_or, replicate, take, drop, true, false};
ghost use Rattle.std.specs.Option.{option_map};
ghost use Rattle.vd_num.specs.Number.{is_within};
ghost use Rattle.vd_pool.specs.Memory.{PoolMemory};
ghost use Rattle.vd_bounce.specs.Frames.{frame_of, held_count, Holds, Keeps};
ghost use Rattle.vd_bounce.specs.Bounce.{Bounce, Place, Iova, Area, page_size, bounce_len, value, home_place, over, is_page_present, IsThere, SameShape};

use crate::rows;
use std::alloc::{AllocError, Global};
use std::marker::Model;
use vd_num::SLOT_SIZE;
use vd_pool::{Frame, Pool};

/// Why no area is made.
#[derive(Clone, Copy, Debug, PartialEq, Eq)]
pub enum AreaError {
    /// An area is registered.
    Busy,
    Memory,
}

/// The pages of a device and its daemon's area. It can't be dropped, since each frame has to be given back.
pub struct BounceMap {
    alloc: Global,
    per_page: u32,
    frames: Vec<Option<Frame>>,
    area: Option<Vec<u8>>,
    user: Option<usize>,
}

impl Model for BounceMap {
    ghost use Rattle.std.specs.Option.{option_map};
    ghost use Rattle.vd_bounce.specs.Bounce.{Bounce, IsFit};

    ghost Value = { Bounce };

    ghost view = { λ b. record {
      frames = b.frames.items;
      area = option_map (λ v. v.items) b.area;
      user = b.user;
      per_page = b.per_page;
    } };

    ghost invariant = { λ b. IsFit
        (record {
          frames = b.frames.items;
          area = option_map (λ v. v.items) b.area;
          user = b.user;
          per_page = b.per_page;
        }) };
}

impl BounceMap {
    /// Pages of `per_page` slots, none of them present, and no area.
    pub fn new(alloc: Global, pages: u32, per_page: u32) -> Result<BounceMap, AllocError>
        requires some { 0 < per_page }
        requires few { per_page ≤ 16 }
        ensures new { IfOk result
            (λ b. b ≡ record {
              frames = replicate pages None;
              area = None;
              user = None;
              per_page =
                  per_page;
            }) }
        ensures holds { IfOk result (λ b. (m : PoolMemory) → Holds b.frames m) }
    {
        Ok(BounceMap {
            alloc,
            per_page,
            frames: rows::none(alloc, pages as usize)?,
            area: None,
            user: None,
        })
    }

    /// How many pages there are.
    pub fn pages(&self) -> u32
        ensures { result ≡ length self.now.frames }
    {
        self.frames.len() as u32
    }

    /// How many slots a page has.
    pub fn per_page(&self) -> u32
        ensures value { result ≡ self.now.per_page }
        ensures some { 0 < result }
    {
        self.per_page
    }

    /// Whether a page is present.
    pub fn present(&self, page: u32) -> bool
        ensures { result ≡ is_page_present self.now page }
    {
        self.has(page as usize)
    }

    /// Whether the bytes from an address on lie in one page, which is present. Where the answer is no, they may
    /// lie in several.
    pub fn is_in_page(&self, at: u64, len: usize) -> bool
        ensures there { result ≡ true → IsThere self.now at len }
        ensures end { result ≡ true → at + len ≤ bounce_len self.now }
    {
        let size = SLOT_SIZE as usize * self.per_page as usize;
        let at = at as usize;
        len <= size - rows::offset_in(size, at) && self.has(rows::page_of(size, at))
    }

    /// Whether there is a page of this number, and it is present.
    fn has(&self, page: usize) -> bool
        ensures { result ≡ is_page_present self.now page }
    {
        page < self.frames.len() && (self.user.is_some() || self.frames[page].is_some())
    }

    /// Whether a range of the area is registered.
    pub fn is_registered(&self) -> bool
        ensures { result ≡ is_some self.now.user }
    {
        self.user.is_some()
    }

    /// Makes a page present. One that isn't gets a frame of zeros; a present page stays as it is.
    pub fn ensure(&mut self, pool: &mut Pool, page: u32)
        requires holds { Holds self.old.frames pool.old }
        requires page { page < length self.old.frames }
        requires spare { 0 < pool.old.spare }
        ensures kept { Keeps self.old.frames self.new.frames pool.old pool.new }
        ensures bytes { (x : Place) → value self.new pool.new x ≡ value self.old pool.old x }
        ensures present { (p : ℕ) → p < length self.old.frames →
            is_page_present self.new p ≡ ((p == page) || is_page_present self.old p) }
        ensures same { SameShape self.old self.new }
        ensures spare { pool.old.spare ≤ pool.new.spare + 1 }
    {
        if self.user.is_none() {
            rows::ensure(&mut self.frames, pool, page as usize);
        }
    }

    /// Writes bytes from an address on.
    pub fn put(&mut self, pool: &mut Pool, at: u64, bytes: &[u8])
        requires holds { Holds self.old.frames pool.old }
        requires size { pool.old.per_page ≡ self.old.per_page }
        requires there { IsThere self.old at (length bytes.now) }
        ensures kept { Keeps self.old.frames self.new.frames pool.old pool.new }
        ensures bytes { (x : Place) →
            value self.new pool.new x
            ≡ over (home_place self.old at) bytes.now x (value self.old pool.old x) }
        ensures present { (p : ℕ) → is_page_present self.new p ≡ is_page_present self.old p }
        ensures frames { self.new.frames ≡ self.old.frames }
        ensures spare { pool.new.spare ≡ pool.old.spare }
        ensures same { SameShape self.old self.new }
    {
        if bytes.is_empty() {
            return;
        }
        let size = SLOT_SIZE as usize * self.per_page as usize;
        match self.user {
            None => rows::put(&self.frames, pool, size, at as usize, bytes),
            Some(user) => match &mut self.area {
                Some(area) => write_at(area, user + at as usize, bytes),
                None => unreachable!(),
            },
        }
    }

    /// Fills a slice with the bytes from an address on.
    pub fn get(&self, pool: &Pool, at: u64, out: &mut [u8])
        requires holds { Holds self.now.frames pool.now }
        requires size { pool.now.per_page ≡ self.now.per_page }
        requires there { IsThere self.now at (length out.old) }
        ensures { (i : ℕ) → i < length out.old →
            slice_index out.new i ≡ value self.now pool.now (home_place self.now (at + i)) }
    {
        if out.is_empty() {
            return;
        }
        let size = SLOT_SIZE as usize * self.per_page as usize;
        match self.user {
            None => rows::get(&self.frames, pool, size, at as usize, out),
            Some(user) => match &self.area {
                Some(area) => read_at(area, user + at as usize, out),
                None => unreachable!(),
            },
        }
    }

    /// Makes an area of zeros in place of the earlier one.
    pub fn new_area(&mut self, bytes: u64) -> Result<(), AreaError>
        ensures ok { OnOk result (self.new ≡ record self.old { area = Some (replicate bytes 0) }) }
        ensures busy { result ≡ Err AreaError.Busy ↔ (is_some self.old.user ≡ true) }
        ensures err { OnErr result (self.new ≡ self.old) }
    {
        if self.user.is_some() {
            return Err(AreaError::Busy);
        }
        match vec![in self.alloc; 0; bytes as usize] {
            Ok(area) => {
                self.area = Some(area);
                Ok(())
            }
            Err(_) => Err(AreaError::Memory),
        }
    }

    /// Ends the area.
    pub fn drop_area(&mut self)
        requires { self.old.user ≡ None }
        ensures { self.new ≡ record self.old { area = None } }
    {
        self.area = None;
    }

    /// How many bytes the area has, and none where there is no area.
    pub fn area_len(&self) -> Option<u64>
        ensures { result ≡ option_map length self.now.area }
    {
        match &self.area {
            Some(area) => Some(area.len() as u64),
            None => None,
        }
    }

    /// Writes bytes into the area, which are bounce bytes too while they are registered.
    pub fn area_put(&mut self, offset: u64, bytes: &[u8])
        requires { offset + length bytes.now ≤ length (unwrap_or self.old.area []) }
        ensures bytes { (m : PoolMemory) (x : Place) →
            value self.new m x ≡ over (Area offset) bytes.now x (value self.old m x) }
        ensures frames { self.new.frames ≡ self.old.frames }
        ensures same { SameShape self.old self.new }
    {
        match &mut self.area {
            Some(area) => write_at(area, offset as usize, bytes),
            None => {}
        }
    }

    /// Fills a slice from the area.
    pub fn area_get(&self, offset: u64, out: &mut [u8])
        requires { offset + length out.old ≤ length (unwrap_or self.now.area []) }
        ensures { (i : ℕ) → i < length out.old →
            slice_index out.new i ≡ slice_index (unwrap_or self.now.area []) (offset + i) }
    {
        match &self.area {
            Some(area) => read_at(area, offset as usize, out),
            None => {}
        }
    }

    /// Sets a frame aside for a page while an area is registered. No byte changes.
    pub fn set_aside(&mut self, pool: &mut Pool, page: u32)
        requires holds { Holds self.old.frames pool.old }
        requires page { page < length self.old.frames }
        requires registered { is_some self.old.user ≡ true }
        requires spare { 0 < pool.old.spare }
        ensures kept { Keeps self.old.frames self.new.frames pool.old pool.new }
        ensures bytes { (x : Place) → value self.new pool.new x ≡ value self.old pool.old x }
        ensures aside { (p : ℕ) →
            is_some (frame_of self.new.frames p)
            ≡ ((p == page) || is_some (frame_of self.old.frames p)) }
        ensures same { SameShape self.old self.new }
        ensures spare { pool.old.spare ≤ pool.new.spare + 1 }
    {
        rows::ensure(&mut self.frames, pool, page as usize);
    }

    /// Registers the area from an offset on as the bounce memory. The bytes of pages in use are copied there
    /// and keep their frames; the frames of the other pages go back to the pool.
    pub fn adopt_user(&mut self, pool: &mut Pool, offset: u64, in_use: &[bool])
        requires holds { Holds self.old.frames pool.old }
        requires size { pool.old.per_page ≡ self.old.per_page }
        requires free { self.old.user ≡ None }
        requires area { is_some self.old.area ≡ true }
        requires room { offset + bounce_len self.old ≤ length (unwrap_or self.old.area []) }
        requires each { length in_use.now ≡ length self.old.frames }
        requires used { (p : ℕ) → slice_index_or in_use.now p false ≡ true →
            is_page_present self.old p ≡ true }
        ensures kept { Keeps self.old.frames self.new.frames pool.old pool.new }
        ensures bounce { (a : ℕ) → value self.new pool.new (Iova a)
            ≡ (if slice_index_or in_use.now (a / page_size self.old) false then value self.old pool.old
            (Iova a) else 0) }
        ensures area { (o : ℕ) → value self.new pool.new (Area o)
            ≡ (if is_within offset (bounce_len self.old) o && slice_index_or in_use.now
            ((o - offset) / page_size self.old) false
            then value self.old pool.old (Iova (o - offset)) else value self.old pool.old (Area o)) }
        ensures aside { (p : ℕ) → is_some (frame_of self.new.frames p) ≡ slice_index_or in_use.now p false }
        ensures same { SameShape (record self.old { user = Some offset }) self.new }
    {
        let size = SLOT_SIZE as usize * self.per_page as usize;
        match &mut self.area {
            Some(area) => rows::adopt(&mut self.frames, pool, size, area, offset as usize, in_use),
            None => unreachable!(),
        }
        self.user = Some(offset as usize);
    }

    /// Ends the registration. Pages in use stay present with their bytes, the others aren't present any more,
    /// and the area keeps its bytes.
    pub fn release_user(&mut self, pool: &mut Pool, in_use: &[bool])
        requires holds { Holds self.old.frames pool.old }
        requires size { pool.old.per_page ≡ self.old.per_page }
        requires registered { is_some self.old.user ≡ true }
        requires each { length in_use.now ≡ length self.old.frames }
        requires used { (p : ℕ) → slice_index_or in_use.now p false ≡ true →
            is_some (frame_of self.old.frames p) ≡ true }
        ensures kept { Keeps self.old.frames self.new.frames pool.old pool.new }
        ensures bounce { (a : ℕ) → value self.new pool.new (Iova a)
            ≡ (if slice_index_or in_use.now (a / page_size self.old) false then value self.old pool.old
            (home_place self.old a) else 0) }
        ensures area { (o : ℕ) → value self.new pool.new (Area o) ≡ value self.old pool.old (Area o) }
        ensures present { (p : ℕ) → is_page_present self.new p ≡ slice_index_or in_use.now p false }
        ensures same { SameShape (record self.old { user = None }) self.new }
    {
        let size = SLOT_SIZE as usize * self.per_page as usize;
        if let Some(user) = self.user {
            match &self.area {
                Some(area) => rows::release(&mut self.frames, pool, size, area, user, in_use),
                None => unreachable!(),
            }
            self.user = None;
        }
    }

    /// Gives the frame of a page back, if it has one. The page holds zeros afterwards.
    pub fn drop_page(&mut self, pool: &mut Pool, page: u32)
        requires holds { Holds self.old.frames pool.old }
        requires page { page < length self.old.frames }
        ensures kept { Keeps self.old.frames self.new.frames pool.old pool.new }
        ensures bytes { (a : ℕ) → value self.new pool.new (Iova a)
            ≡ (if a / page_size self.old == page then 0 else value self.old pool.old (Iova a)) }
        ensures area { (o : ℕ) → value self.new pool.new (Area o) ≡ value self.old pool.old (Area o) }
        ensures frames { (p : ℕ) →
            is_some (frame_of self.new.frames p)
            ≡ (not (p == page) && is_some (frame_of self.old.frames p)) }
        ensures same { SameShape self.old self.new }
    {
        rows::drop_page(&mut self.frames, pool, page as usize);
    }

    /// Gives every frame back.
    pub fn empty(&mut self, pool: &mut Pool)
        requires holds { Holds self.old.frames pool.old }
        ensures kept { Keeps self.old.frames self.new.frames pool.old pool.new }
        ensures none { (p : ℕ) → frame_of self.new.frames p ≡ None }
        ensures same { SameShape self.old self.new }
    {
        rows::empty(&mut self.frames, pool);
    }

    /// Ends the bounce memory and gives every frame back.
    pub fn discard(self, pool: &mut Pool)
        requires holds { Holds self.frames pool.old }
        ensures kept { Keeps self.frames (replicate 0 None) pool.old pool.new }
        ensures back { pool.new.spare ≡ pool.old.spare + held_count self.frames }
    {
        let BounceMap {
            alloc: _,
            per_page: _,
            frames,
            area: _,
            user: _,
        } = self;
        rows::discard(frames, pool);
    }
}

/// Writes bytes into a slice from an index on.
fn write_at(memory: &mut [u8], at: usize, bytes: &[u8])
    requires { at + length bytes.now ≤ length memory.old }
    ensures { (i : ℕ) → slice_index memory.new i
        ≡ (if is_within at (length bytes.now) i then slice_index bytes.now (i - at) else slice_index memory.old i) }
{
    memory[at..at + bytes.len()].copy_from_slice(bytes);
}

/// Fills a slice from another one, from an index on.
fn read_at(memory: &[u8], at: usize, out: &mut [u8])
    requires { at + length out.old ≤ length memory.now }
    ensures { out.new ≡ take (length out.old) (drop at memory.now) }
{
    let n = out.len();
    out.copy_from_slice(&memory[at..at + n]);
}
