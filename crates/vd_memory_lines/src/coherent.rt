//! The driver's lines on coherent regions.

ghost use Rattle.std.specs.Prelude.{◌≡◌, ◌<◌, ◌^◌, ℕ, List};
ghost use Rattle.vd_pool.specs.Memory as pool;
ghost use Rattle.vd_model.specs.Setting.{Setting};
ghost use Rattle.vd_model.specs.Acts.{Act, Driver};
ghost use Rattle.vd_model.specs.Turn.{lift};
ghost use Rattle.vd_model.specs.DriverTurns.{coherent_turn, on_region, freecoherent_turn, cput_turn, cget_turn};
ghost use Rattle.vd_answers.specs.Tells.{Tells, MayTell};

use crate::mappings::tell_mapped;
use crate::memory::Memory;
use std::alloc::AllocError;
use vd_answers::Hears;
use vd_domain::NotLive;
use vd_num::{Bus, Errno};

impl Memory {
    ghost use Rattle.vd_memory_lines.specs.Rest.{KeepsFrames};
    ghost use Rattle.vd_memory_lines.specs.Stands.{Stands, After};

    /// Makes a coherent region of zeros.
    pub fn coherent<T: Hears>(&mut self, len: u64, told: &mut T) -> Result<(), AllocError>
        requires ready { T.is_ready told.old }
        requires room { self.old.domain.made < 2 ^ 62 }
        ensures line { (x : Setting) (acts : List Act) (m : pool.PoolMemory) → Stands x acts self.old m →
            MayTell (λ said. T.heard told.old said told.new) (lift Driver (coherent_turn x acts len))
            (After x acts self.new m) result }
        ensures rest { KeepsFrames self.old self.new }
    {
        tell_mapped(self.domain.alloc_coherent(len), told)
    }

    /// Ends a coherent region.
    pub fn freecoherent<T: Hears>(&mut self, number: u64, told: &mut T)
        requires { T.is_ready told.old }
        ensures line { (x : Setting) (acts : List Act) (m : pool.PoolMemory) → Stands x acts self.old m →
            Tells (λ said. T.heard told.old said told.new)
            (lift Driver (on_region acts number freecoherent_turn)) (After x acts self.new m) }
        ensures rest { KeepsFrames self.old self.new }
    {
        match self.domain.free_coherent(number) {
            Ok(()) => told.done(),
            Err(NotLive) => told.refused(Errno::Noent),
        }
    }

    /// Writes the driver's bytes into a coherent region.
    pub fn cput<T: Hears>(&mut self, region: u64, offset: u64, bytes: &[u8], told: &mut T)
        requires { T.is_ready told.old }
        ensures line { (x : Setting) (acts : List Act) (m : pool.PoolMemory) → Stands x acts self.old m →
            Tells (λ said. T.heard told.old said told.new)
            (lift Driver (on_region acts region (cput_turn offset bytes.now))) (After x acts self.new m) }
        ensures rest { KeepsFrames self.old self.new }
    {
        let at = match self.domain.place_in(region, offset, bytes.len() as u64) {
            Ok(at) => at,
            Err(errno) => return told.refused(errno),
        };
        match self.domain.ring_store(at, bytes) {
            Ok(()) => told.done(),
            // No address of a live region is out of reach.
            Err(Bus { at }) => told.bus(at),
        }
    }

    /// Tells bytes of a coherent region.
    pub fn cget<T: Hears>(
        &mut self,
        region: u64,
        offset: u64,
        len: u64,
        told: &mut T,
    ) -> Result<(), AllocError>
        requires { T.is_ready told.old }
        ensures line { (x : Setting) (acts : List Act) (m : pool.PoolMemory) → Stands x acts self.old m →
            MayTell (λ said. T.heard told.old said told.new)
            (lift Driver (on_region acts region (cget_turn x acts offset len))) (After x acts self.new m) result }
        ensures rest { KeepsFrames self.old self.new }
    {
        let at = match self.domain.place_in(region, offset, len) {
            Ok(at) => at,
            Err(errno) => {
                told.refused(errno);
                return Ok(());
            }
        };
        self.take_room(len as usize)?;
        let bytes = &mut self.scratch[..len as usize];
        match self.domain.ring_load(at, bytes) {
            Ok(()) => told.text(bytes),
            // No address of a live region is out of reach.
            Err(Bus { at }) => {
                told.bus(at);
                Ok(())
            }
        }
    }
}
