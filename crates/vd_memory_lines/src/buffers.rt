//! The driver's lines on its buffers.

ghost use Rattle.std.specs.Prelude.{◌≡◌, ◌∷◌, ℕ, List, length};
ghost use Rattle.vd_pool.specs.Memory as pool;
ghost use Rattle.vd_model.specs.Setting.{Setting};
ghost use Rattle.vd_model.specs.Acts.{Act, Driver};
ghost use Rattle.vd_model.specs.Turn.{lift};
ghost use Rattle.vd_model.specs.DriverTurns.{buf_turn, zeros_turn, free_turn, poke_turn, peek_turn};
ghost use Rattle.vd_answers.specs.Tells.{Tells, MayTell};

use crate::memory::Memory;
use std::alloc::AllocError;
use vd_answers::{Hears, tell};
use vd_model::Item;
use vd_num::Errno;

impl Memory {
    ghost use Rattle.vd_memory_lines.specs.Stands.{Stands, After};

    /// Makes a buffer of these bytes.
    pub fn buf<T: Hears>(&mut self, bytes: &[u8], told: &mut T) -> Result<(), AllocError>
        requires { T.is_ready told.old }
        ensures line { (x : Setting) (acts : List Act) (m : pool.PoolMemory) → Stands x acts self.old m →
            MayTell (λ said. T.heard told.old said told.new) (lift Driver (buf_turn acts bytes.now))
            (After x acts self.new m) result }
        ensures rest { self.new ≡ record self.old { buffers = self.new.buffers } }
    {
        if !self.buffers.has_room(bytes.len() as u64) {
            told.refused(Errno::Nospc);
            return Ok(());
        }
        let number = self.buffers.add(bytes)?;
        told.fields(&[Item::Number(number)]);
        Ok(())
    }

    /// Makes a buffer of zeros.
    pub fn zeros<T: Hears>(&mut self, len: u64, told: &mut T) -> Result<(), AllocError>
        requires { T.is_ready told.old }
        ensures line { (x : Setting) (acts : List Act) (m : pool.PoolMemory) → Stands x acts self.old m →
            MayTell (λ said. T.heard told.old said told.new) (lift Driver (zeros_turn acts len))
            (After x acts self.new m) result }
        ensures rest { self.new ≡ record self.old { buffers = self.new.buffers } }
    {
        if !self.buffers.has_room(len) {
            told.refused(Errno::Nospc);
            return Ok(());
        }
        let number = self.buffers.zeros(len)?;
        told.fields(&[Item::Number(number)]);
        Ok(())
    }

    /// Frees a buffer that no live mapping is of.
    pub fn free<T: Hears>(&mut self, buffer: u64, told: &mut T)
        requires { T.is_ready told.old }
        ensures line { (x : Setting) (acts : List Act) (m : pool.PoolMemory) → Stands x acts self.old m →
            Tells (λ said. T.heard told.old said told.new) (lift Driver (free_turn acts buffer))
            (After x acts self.new m) }
        ensures rest { self.new ≡ record self.old { buffers = self.new.buffers } }
    {
        if self.buffers.len_of(buffer).is_none() {
            return told.refused(Errno::Noent);
        }
        if self.domain.maps_buffer(buffer) {
            return told.refused(Errno::Busy);
        }
        self.buffers.free(buffer);
        told.done();
    }

    /// Writes bytes into a buffer.
    pub fn poke<T: Hears>(&mut self, buffer: u64, offset: u64, bytes: &[u8], told: &mut T)
        requires { T.is_ready told.old }
        ensures line { (x : Setting) (acts : List Act) (m : pool.PoolMemory) → Stands x acts self.old m →
            Tells (λ said. T.heard told.old said told.new)
            (lift Driver (poke_turn acts buffer offset bytes.now)) (After x acts self.new m) }
        ensures rest { self.new ≡ record self.old { buffers = self.new.buffers } }
    {
        tell(told, self.buffers.poke(buffer, offset, bytes));
    }

    /// Tells a range of a buffer.
    pub fn peek<T: Hears>(
        &self,
        buffer: u64,
        offset: u64,
        len: u64,
        told: &mut T,
    ) -> Result<(), AllocError>
        requires { T.is_ready told.old }
        ensures line { (x : Setting) (acts : List Act) (m : pool.PoolMemory) → Stands x acts self.now m →
            MayTell (λ said. T.heard told.old said told.new) (lift Driver (peek_turn x acts buffer offset len))
            (After x acts self.now m) result }
    {
        match self.buffers.range(buffer, offset, len) {
            Ok(text) => told.text(text),
            Err(errno) => {
                told.refused(errno);
                Ok(())
            }
        }
    }
}
