//! The driver's lines on its mappings.

ghost use Rattle.std.specs.Prelude.{◌≡◌, ◌≢◌, ◌+◌, ◌-◌, ◌<◌, ◌≤◌, ◌^◌, ◌∷◌, ℕ, List, length, slice_index, true, Some, IfSome, OnOk, Err};
ghost use Rattle.vd_pool.specs.Memory as pool;
ghost use Rattle.vd_bounce.specs.Frames.{Holds, Keeps};
ghost use Rattle.vd_domain.specs.Held.{mapping_of};
ghost use Rattle.vd_domain.specs.Stands as memory;
ghost use Rattle.vd_model.specs.Setting.{Setting};
ghost use Rattle.vd_model.specs.Acts.{Act, Driver, Streaming, Unmapped, Synced_cpu};
ghost use Rattle.vd_model.specs.Turn.{lift};
ghost use Rattle.vd_model.specs.DriverTurns.{map_turn, on_mapping, unmap_turn, syncdev_turn, synccpu_turn};
ghost use Rattle.vd_model.specs.Puts.{is_from_device};
ghost use Rattle.vd_answers.specs.Tells.{Tells, MayTell};
ghost use Rattle.vd_memory_lines.specs.Given.{given};
ghost use Rattle.vd_memory_lines.specs.Mapped.{TellsMapped};

use crate::memory::Memory;
use std::alloc::AllocError;
use vd_answers::{Hears, tell};
use vd_domain::{Domain, SyncError};
use vd_model::{Item, MapError, Mapping, Tag, Want};
use vd_num::Errno;
use vd_pool::Pool;

/// Tells the number and the address of what was mapped, or why nothing was.
pub(crate) fn tell_mapped<T: Hears>(
    mapped: Result<Mapping, MapError>,
    told: &mut T,
) -> Result<(), AllocError>
    requires { T.is_ready told.old }
    ensures { TellsMapped (λ said. T.heard told.old said told.new) mapped result }
{
    match mapped {
        Ok(mapping) => told.fields(&[
            Item::Number(mapping.number),
            Item::Word(Tag::Iova),
            Item::Address(mapping.iova),
        ]),
        Err(MapError::Empty) => told.refused(Errno::Inval),
        Err(MapError::NoSpace) => told.refused(Errno::Nospc),
        Err(MapError::Memory) => return Err(AllocError),
    }
    Ok(())
}

/// Ends a live mapping, and puts its bytes into its range of the buffer where it comes from the device.
fn end_mapping(domain: &mut Domain, pool: &mut Pool, number: u64, want: &Want, bytes: &mut [u8])
    requires holds { Holds domain.old.bounce.frames pool.old }
    requires size { pool.old.per_page ≡ domain.old.bounce.per_page }
    requires live { IfSome (mapping_of domain.old number) (λ m. m.want ≡ want.now) }
    requires range { want.now.offset + want.now.len ≤ length bytes.old }
    ensures kept { Keeps domain.old.bounce.frames domain.new.bounce.frames pool.old pool.new }
    ensures ok { (x : Setting) (acts : List Act) (m : Streaming) → mapping_of domain.old number ≡ Some m →
        memory.Stands x acts domain.old pool.old
        → memory.Stands x (Driver (Unmapped m) ∷ acts) domain.new pool.new }
    ensures given { (x : Setting) (acts : List Act) (m : Streaming) → mapping_of domain.old number ≡ Some m →
        memory.Stands x acts domain.old pool.old
        → (j : ℕ) → j < length bytes.old →
        slice_index bytes.new j ≡ given x.per_page acts m j (slice_index bytes.old j) }
    ensures len { length bytes.new ≡ length bytes.old }
    ensures counts { (domain.new.maps ≡ domain.old.maps) × (domain.new.made ≡ domain.old.made) }
    ensures page { domain.new.bounce.per_page ≡ domain.old.bounce.per_page }
{
    let (_before, rest) = bytes.split_at_mut(want.offset as usize);
    let (part, _after) = rest.split_at_mut(want.len as usize);
    let _ended = domain.unmap(pool, number, part);
}

/// Puts a live mapping's bytes, which come from the device, into its range of the buffer.
fn fetch(domain: &mut Domain, pool: &mut Pool, number: u64, want: &Want, bytes: &mut [u8])
    requires holds { Holds domain.old.bounce.frames pool.old }
    requires size { pool.old.per_page ≡ domain.old.bounce.per_page }
    requires live { IfSome (mapping_of domain.old number) (λ m. m.want ≡ want.now) }
    requires way { is_from_device want.now.dir ≡ true }
    requires range { want.now.offset + want.now.len ≤ length bytes.old }
    ensures ok { (x : Setting) (acts : List Act) (m : Streaming) → mapping_of domain.old number ≡ Some m →
        memory.Stands x acts domain.old pool.old
        → memory.Stands x (Driver (Synced_cpu m) ∷ acts) domain.new pool.new }
    ensures given { (x : Setting) (acts : List Act) (m : Streaming) → mapping_of domain.old number ≡ Some m →
        memory.Stands x acts domain.old pool.old
        → (j : ℕ) → j < length bytes.old →
        slice_index bytes.new j ≡ given x.per_page acts m j (slice_index bytes.old j) }
    ensures len { length bytes.new ≡ length bytes.old }
    ensures same { (domain.new ≡ domain.old) × (pool.new ≡ pool.old) }
{
    let (_before, rest) = bytes.split_at_mut(want.offset as usize);
    let (part, _after) = rest.split_at_mut(want.len as usize);
    let _synced = domain.sync_cpu(pool, number, part);
}

impl Memory {
    ghost use Rattle.vd_memory_lines.specs.Rest.{KeepsRest, KeepsFrames};
    ghost use Rattle.vd_memory_lines.specs.Stands.{Stands, After, IsHeld, IsReached};

    /// Maps a range of a buffer.
    pub fn map<T: Hears>(
        &mut self,
        pool: &mut Pool,
        want: Want,
        told: &mut T,
    ) -> Result<(), AllocError>
        requires ready { T.is_ready told.old }
        requires held { IsHeld self.old pool.old }
        requires room { self.old.domain.maps < 2 ^ 62 }
        ensures line { (x : Setting) (acts : List Act) → Stands x acts self.old pool.old →
            MayTell (λ said. T.heard told.old said told.new) (lift Driver (map_turn x acts want))
            (After x acts self.new pool.new) result }
        ensures rest { KeepsRest self.old self.new pool.old pool.new }
    {
        let text = match self.buffers.range(want.buffer, want.offset, want.len) {
            Ok(text) => text,
            Err(errno) => {
                told.refused(errno);
                return Ok(());
            }
        };
        tell_mapped(self.domain.map(pool, want, text), told)
    }

    /// Ends a mapping, and gives its bytes to the buffer where it comes from the device.
    pub fn unmap<T: Hears>(&mut self, pool: &mut Pool, number: u64, told: &mut T)
        requires ready { T.is_ready told.old }
        requires held { IsHeld self.old pool.old }
        requires reached { IsReached self.old pool.old }
        ensures line { (x : Setting) (acts : List Act) → Stands x acts self.old pool.old →
            Tells (λ said. T.heard told.old said told.new) (lift Driver (on_mapping acts number unmap_turn))
            (After x acts self.new pool.new) }
        ensures rest { KeepsRest self.old self.new pool.old pool.new }
    {
        let want = match self.domain.info(number) {
            Some(info) => info.want,
            None => return told.refused(Errno::Noent),
        };
        let mut bytes = self.buffers.lend(want.buffer);
        end_mapping(&mut self.domain, pool, number, &want, &mut bytes);
        self.buffers.give(want.buffer, bytes);
        told.done();
    }

    /// Copies a mapping's bytes to the device, as a map does.
    pub fn syncdev<T: Hears>(&mut self, pool: &mut Pool, number: u64, told: &mut T)
        requires ready { T.is_ready told.old }
        requires held { IsHeld self.old pool.old }
        ensures line { (x : Setting) (acts : List Act) → Stands x acts self.old pool.old →
            Tells (λ said. T.heard told.old said told.new) (lift Driver (on_mapping acts number syncdev_turn))
            (After x acts self.new pool.new) }
        ensures rest { KeepsRest self.old self.new pool.old pool.new }
    {
        let want = match self.domain.info(number) {
            Some(info) => info.want,
            None => return told.refused(Errno::Noent),
        };
        match self.buffers.range(want.buffer, want.offset, want.len) {
            Ok(bytes) => match self.domain.sync_device(pool, number, bytes) {
                Ok(()) => told.done(),
                Err(SyncError::NotLive) => told.refused(Errno::Noent),
                Err(SyncError::WrongDir) => told.refused(Errno::Inval),
            },
            // A live mapping's range is never refused.
            Err(errno) => told.refused(errno),
        }
    }

    /// Gives a mapping's bytes to the buffer, as an unmap does.
    pub fn synccpu<T: Hears>(&mut self, pool: &mut Pool, number: u64, told: &mut T)
        requires ready { T.is_ready told.old }
        requires held { IsHeld self.old pool.old }
        requires reached { IsReached self.old pool.old }
        ensures line { (x : Setting) (acts : List Act) → Stands x acts self.old pool.old →
            Tells (λ said. T.heard told.old said told.new) (lift Driver (on_mapping acts number synccpu_turn))
            (After x acts self.new pool.new) }
        ensures rest { KeepsRest self.old self.new pool.old pool.new }
    {
        let want = match self.domain.info(number) {
            Some(info) => info.want,
            None => return told.refused(Errno::Noent),
        };
        if !want.dir.is_from_device() {
            return told.refused(Errno::Inval);
        }
        let mut bytes = self.buffers.lend(want.buffer);
        fetch(&mut self.domain, pool, number, &want, &mut bytes);
        self.buffers.give(want.buffer, bytes);
        told.done();
    }
}
