//! The daemon's lines on the memory that it sees.

ghost use Rattle.std.specs.Prelude.{◌≡◌, ℕ, List, length, MatchResult};
ghost use Rattle.vd_pool.specs.Memory as pool;
ghost use Rattle.vd_model.specs.Setting.{Setting};
ghost use Rattle.vd_model.specs.Acts.{Act, Node, NodeAct};
ghost use Rattle.vd_model.specs.Turn.{Turn, lift, refusal_turn};
ghost use Rattle.vd_model.specs.AreaTurns.{load_turn, store_turn, found_or, lookup_turn, iovainfo_turn, capability_of, new_area_turn, areaput_turn, areaget_turn, regumem_turn, deregumem_turn};
ghost use Rattle.vd_answers.specs.Tells.{Tells, MayTell};

use crate::memory::Memory;
use std::alloc::AllocError;
use vd_answers::{Hears, tell};
use vd_bounce::AreaError;
use vd_domain::AREA_START;
use vd_model::{Item, Region, Tag};
use vd_num::{Bus, Errno, Range, SLOT_SIZE};
use vd_pool::Pool;

/// A range of I/O memory that a registration names: its first address, and how many bytes it has.
#[derive(Clone, Copy, Debug, PartialEq, Eq)]
pub struct Extent {
    pub iova: u64,
    pub size: u64,
}

/// How many bytes an area may have.
const AREA_LIMIT: u64 = 134_217_728;

/// Whether an area can be registered for a region: for bounce memory alone, which begins at 0. The answer is 1 or 0, as
/// the bits of `capability` in `struct vduse_iova_info` of `linux/vduse.h`.
pub fn capability(region: &Region) -> u64
    ensures { result ≡ capability_of region.now }
{
    if region.start == 0 { 1 } else { 0 }
}

impl Memory {
    ghost use Rattle.vd_memory_lines.specs.Rest.{KeepsRest, KeepsFrames};
    ghost use Rattle.vd_memory_lines.specs.Stands.{Stands, After, IsHeld};

    /// Writes the daemon's bytes at an address.
    pub fn store<T: Hears>(&mut self, pool: &mut Pool, at: u64, bytes: &[u8], told: &mut T)
        requires ready { T.is_ready told.old }
        requires held { IsHeld self.old pool.old }
        ensures line { (x : Setting) (acts : List Act) → Stands x acts self.old pool.old →
            Tells (λ said. T.heard told.old said told.new) (lift Node (store_turn x acts at bytes.now))
            (After x acts self.new pool.new) }
        ensures rest { KeepsRest self.old self.new pool.old pool.new }
    {
        match self.domain.store(pool, at, bytes) {
            Ok(()) => told.done(),
            Err(Bus { at }) => told.bus(at),
        }
    }

    /// Tells the bytes from an address on.
    pub fn load<T: Hears>(
        &mut self,
        pool: &Pool,
        at: u64,
        len: u64,
        told: &mut T,
    ) -> Result<(), AllocError>
        requires ready { T.is_ready told.old }
        requires held { IsHeld self.old pool.now }
        ensures line { (x : Setting) (acts : List Act) → Stands x acts self.old pool.now →
            MayTell (λ said. T.heard told.old said told.new) (lift Node (load_turn x acts at len))
            (After x acts self.new pool.now) result }
        ensures rest { KeepsFrames self.old self.new }
    {
        self.take_room(len as usize)?;
        let bytes = &mut self.scratch[..len as usize];
        match self.domain.load(pool, at, bytes) {
            Ok(()) => told.text(bytes),
            Err(Bus { at }) => {
                told.bus(at);
                Ok(())
            }
        }
    }

    /// The region of least start that overlaps a range, or the refusal.
    pub fn find_region(&self, range: Range) -> Result<Region, Errno>
        ensures { (x : Setting) (acts : List Act) (m : pool.PoolMemory) → Stands x acts self.now m → MatchResult result
            (λ region. (turn : Region → Turn NodeAct) → found_or x acts range.start range.last turn ≡ turn region)
            (λ errno. (turn : Region → Turn NodeAct) →
            found_or x acts range.start range.last turn ≡ refusal_turn errno) }
    {
        self.domain.lookup(range)
    }

    /// Tells the region of least start that overlaps a range.
    pub fn lookup<T: Hears>(&self, range: Range, told: &mut T)
        requires { T.is_ready told.old }
        ensures line { (x : Setting) (acts : List Act) (m : pool.PoolMemory) → Stands x acts self.now m →
            Tells (λ said. T.heard told.old said told.new)
            (lift Node (found_or x acts range.start range.last lookup_turn)) (After x acts self.now m) }
    {
        match self.domain.lookup(range) {
            Ok(region) => told.fields(&[
                Item::Word(Tag::Offset),
                Item::Address(region.offset),
                Item::Word(Tag::Start),
                Item::Address(region.start),
                Item::Word(Tag::Last),
                Item::Address(region.last),
                Item::Word(Tag::Perm),
                Item::Number(u64::from(region.perm)),
            ]),
            Err(errno) => told.refused(errno),
        }
    }

    /// Tells the same region, and whether an area can be registered for it.
    pub fn iovainfo<T: Hears>(&self, range: Range, told: &mut T)
        requires { T.is_ready told.old }
        ensures line { (x : Setting) (acts : List Act) (m : pool.PoolMemory) → Stands x acts self.now m →
            Tells (λ said. T.heard told.old said told.new)
            (lift Node (found_or x acts range.start range.last iovainfo_turn)) (After x acts self.now m) }
    {
        match self.domain.lookup(range) {
            Ok(region) => told.fields(&[
                Item::Word(Tag::Start),
                Item::Address(region.start),
                Item::Word(Tag::Last),
                Item::Address(region.last),
                Item::Word(Tag::Capability),
                Item::Number(capability(&region)),
            ]),
            Err(errno) => told.refused(errno),
        }
    }

    /// Makes an area of zeros in place of the earlier one.
    pub fn area<T: Hears>(&mut self, bytes: u64, told: &mut T) -> Result<(), AllocError>
        requires { T.is_ready told.old }
        ensures line { (x : Setting) (acts : List Act) (m : pool.PoolMemory) → Stands x acts self.old m →
            MayTell (λ said. T.heard told.old said told.new) (lift Node (new_area_turn acts bytes))
            (After x acts self.new m) result }
        ensures rest { KeepsFrames self.old self.new }
    {
        if bytes == 0 || bytes % SLOT_SIZE != 0 || bytes > AREA_LIMIT {
            told.refused(Errno::Inval);
            return Ok(());
        }
        match self.domain.new_area(bytes) {
            Ok(()) => told.fields(&[Item::Word(Tag::Base), Item::Address(AREA_START)]),
            Err(AreaError::Busy) => told.refused(Errno::Busy),
            Err(AreaError::Memory) => return Err(AllocError),
        }
        Ok(())
    }

    /// Writes the daemon's bytes into the area.
    pub fn areaput<T: Hears>(&mut self, offset: u64, bytes: &[u8], told: &mut T)
        requires { T.is_ready told.old }
        ensures line { (x : Setting) (acts : List Act) (m : pool.PoolMemory) → Stands x acts self.old m →
            Tells (λ said. T.heard told.old said told.new) (lift Node (areaput_turn acts offset bytes.now))
            (After x acts self.new m) }
        ensures rest { KeepsFrames self.old self.new }
    {
        let size = match self.domain.area_len() {
            Some(size) => size,
            None => return told.refused(Errno::Noent),
        };
        if offset > size || bytes.len() as u64 > size - offset {
            return told.refused(Errno::Inval);
        }
        self.domain.area_put(offset, bytes);
        told.done();
    }

    /// Tells bytes of the area.
    pub fn areaget<T: Hears>(
        &mut self,
        offset: u64,
        len: u64,
        told: &mut T,
    ) -> Result<(), AllocError>
        requires { T.is_ready told.old }
        ensures line { (x : Setting) (acts : List Act) (m : pool.PoolMemory) → Stands x acts self.old m →
            MayTell (λ said. T.heard told.old said told.new) (lift Node (areaget_turn x acts offset len))
            (After x acts self.new m) result }
        ensures rest { KeepsFrames self.old self.new }
    {
        let size = match self.domain.area_len() {
            Some(size) => size,
            None => {
                told.refused(Errno::Noent);
                return Ok(());
            }
        };
        if offset > size || len > size - offset {
            told.refused(Errno::Inval);
            return Ok(());
        }
        self.take_room(len as usize)?;
        let bytes = &mut self.scratch[..len as usize];
        self.domain.area_get(offset, bytes);
        told.text(bytes)
    }

    /// Registers the area from an address on as the bounce memory.
    pub fn regumem<T: Hears>(&mut self, pool: &mut Pool, uaddr: u64, range: Extent, told: &mut T)
        requires ready { T.is_ready told.old }
        requires held { IsHeld self.old pool.old }
        ensures line { (x : Setting) (acts : List Act) → Stands x acts self.old pool.old →
            Tells (λ said. T.heard told.old said told.new)
            (lift Node (regumem_turn x acts uaddr range.iova range.size)) (After x acts self.new pool.new) }
        ensures rest { KeepsRest self.old self.new pool.old pool.new }
    {
        tell(
            told,
            self.domain.reg_umem(pool, uaddr, range.iova, range.size),
        );
    }

    /// Ends the registration.
    pub fn deregumem<T: Hears>(&mut self, pool: &mut Pool, range: Extent, told: &mut T)
        requires ready { T.is_ready told.old }
        requires held { IsHeld self.old pool.old }
        ensures line { (x : Setting) (acts : List Act) → Stands x acts self.old pool.old →
            Tells (λ said. T.heard told.old said told.new)
            (lift Node (deregumem_turn x acts range.iova range.size)) (After x acts self.new pool.new) }
        ensures rest { KeepsRest self.old self.new pool.old pool.new }
    {
        tell(told, self.domain.dereg_umem(pool, range.iova, range.size));
    }
}
