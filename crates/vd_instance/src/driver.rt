//! The driver's lines on a queue, which need a device on the bus.

ghost use Rattle.std.specs.Prelude.{◌≡◌, ◌+◌, ◌-◌, ◌<◌, ◌≤◌, ◌^◌, ◌==◌, ◌∷◌, ℕ, List, Some};
ghost use Rattle.vd_pool.specs.Memory.{PoolMemory};
ghost use Rattle.vd_model.specs.Setting.{Setting};
ghost use Rattle.vd_model.specs.Creation.{Creation};
ghost use Rattle.vd_model.specs.Acts.{Act};
ghost use Rattle.vd_model.specs.History.{needs_bus};
ghost use Rattle.vd_model.specs.RingTurns.{ring_turn, add_turn, submit_turn};
ghost use Rattle.vd_answers.specs.Tells.{Tells, MayTell};
ghost use Rattle.vd_request_lines.specs.Known.{IsKnown};
ghost use Rattle.vd_request_lines.specs.Asking.{wants_made_buffer};

use crate::drivers::owns_buffer;
use crate::instance::Instance;
use crate::known::known;
use crate::line::RingLine;
use std::alloc::AllocError;
use vd_answers::Hears;
use vd_model::{Part, SubmitForm};
use vd_num::Errno;
use vd_pool::Pool;
use vd_request_lines::{KnownDriver, RequestWanted, RingWanted, ring, submit};

impl Instance {
    ghost use Rattle.vd_instance.specs.Lines.{ring_line_turn, HasParts};
    ghost use Rattle.vd_instance.specs.Rest.{KeepsDriver};
    ghost use Rattle.vd_instance.specs.Stands.{Stands, After, IsHeld, IsNamed, IsReached, IsWithin};

    /// What is known of a queue, and which features the driver accepted.
    fn known_driver(&self, queue: u32) -> KnownDriver
        ensures { (x : Setting) (made : Creation) (acts : List Act) (m : PoolMemory) →
            Stands x made acts self.now m → IsKnown made acts queue result }
    {
        KnownDriver {
            info: known(&self.device.path.state, queue),
            features: self.device.path.state.features(),
        }
    }

    /// Answers a line on the ring that a queue has.
    pub(crate) fn on_ring<T: Hears>(
        &mut self,
        pool: &mut Pool,
        queue: u32,
        line: RingLine<'_>,
        told: &mut T,
    )
        requires ready { T.is_ready told.old }
        requires some { HasParts line }
        requires held { IsHeld self.old pool.old }
        requires reached { IsReached self.old pool.old }
        requires room { IsWithin (2 ^ 59) self.old }
        ensures line { (x : Setting) (made : Creation) (acts : List Act) → Stands x made acts self.old pool.old
            → Tells (λ said. T.heard told.old said told.new)
            (needs_bus acts (ring_line_turn x made acts queue line.entry)) (After x made acts self.new pool.new) }
        ensures rest { KeepsDriver self.old self.new pool.old pool.new }
        ensures named { (name : List ℕ) → IsNamed name self.old → IsNamed name self.new }
    {
        if !self.device.path.attached {
            return told.refused(Errno::Nodev);
        }
        let known = self.known_driver(queue);
        match self.drivers.get_mut(queue as usize) {
            Some(kept) => line.answer(told, &mut self.device.memory, pool, kept, &known),
            // There is no such queue.
            None => told.refused(Errno::Inval),
        }
    }

    /// Makes a ring on a queue that has none.
    pub(crate) fn make_ring<T: Hears>(
        &mut self,
        queue: u32,
        size: u64,
        told: &mut T,
    ) -> Result<(), AllocError>
        requires ready { T.is_ready told.old }
        requires room { IsWithin (2 ^ 59) self.old }
        ensures line { (x : Setting) (made : Creation) (acts : List Act) (m : PoolMemory) →
            Stands x made acts self.old m
            → MayTell (λ said. T.heard told.old said told.new)
            (needs_bus acts (ring_turn x made acts queue size)) (After x made acts self.new m) result }
        ensures rest { (m : PoolMemory) → IsHeld self.old m → KeepsDriver self.old self.new m m }
        ensures named { (name : List ℕ) → IsNamed name self.old → IsNamed name self.new }
    {
        if !self.device.path.attached {
            told.refused(Errno::Nodev);
            return Ok(());
        }
        let known = self.known_driver(queue);
        let wanted = RingWanted {
            queue: known,
            size,
            alloc: self.device.memory.alloc,
        };
        match self.drivers.get_mut(queue as usize) {
            Some(kept) => ring(told, &mut self.device.memory, kept, &wanted),
            // There is no such queue.
            None => {
                told.refused(Errno::Inval);
                Ok(())
            }
        }
    }

    /// Adds a chain to the ring that a queue has.
    pub(crate) fn add<T: Hears>(
        &mut self,
        pool: &mut Pool,
        queue: u32,
        parts: &[Part],
        told: &mut T,
    ) -> Result<(), AllocError>
        requires ready { T.is_ready told.old }
        requires held { IsHeld self.old pool.old }
        requires reached { IsReached self.old pool.old }
        requires room { IsWithin (2 ^ 59) self.old }
        ensures line { (x : Setting) (made : Creation) (acts : List Act) → Stands x made acts self.old pool.old
            → MayTell (λ said. T.heard told.old said told.new)
            (needs_bus acts (add_turn made acts queue parts.now)) (After x made acts self.new pool.new) result }
        ensures rest { KeepsDriver self.old self.new pool.old pool.new }
        ensures named { (name : List ℕ) → IsNamed name self.old → IsNamed name self.new }
    {
        // A line has some parts, so none of them is answered so.
        if parts.is_empty() {
            return Err(AllocError);
        }
        self.on_ring(pool, queue, RingLine::Add(parts), told);
        Ok(())
    }

    /// Whether a pending request made the buffer that a request is to map.
    fn wants_made_buffer(&self, form: &SubmitForm) -> bool
        ensures { (x : Setting) (made : Creation) (acts : List Act) (m : PoolMemory) →
            Stands x made acts self.now m → result ≡ wants_made_buffer made acts form.now }
    {
        match form {
            SubmitForm::Read { buffer, .. } => owns_buffer(&self.drivers, *buffer),
            SubmitForm::Write { buffer, .. } => owns_buffer(&self.drivers, *buffer),
            SubmitForm::Flush => false,
            SubmitForm::Id { buffer, .. } => owns_buffer(&self.drivers, *buffer),
        }
    }

    /// Places a block request on a queue that has a ring.
    pub(crate) fn submit<T: Hears>(
        &mut self,
        pool: &mut Pool,
        queue: u32,
        form: &SubmitForm,
        told: &mut T,
    ) -> Result<(), AllocError>
        requires ready { T.is_ready told.old }
        requires held { IsHeld self.old pool.old }
        requires reached { IsReached self.old pool.old }
        requires room { IsWithin (2 ^ 59) self.old }
        ensures line { (x : Setting) (made : Creation) (acts : List Act) → Stands x made acts self.old pool.old
            → MayTell (λ said. T.heard told.old said told.new)
            (needs_bus acts (submit_turn x made acts queue form.now)) (After x made acts self.new pool.new) result }
        ensures rest { KeepsDriver self.old self.new pool.old pool.new }
        ensures named { (name : List ℕ) → IsNamed name self.old → IsNamed name self.new }
    {
        if !self.device.path.attached {
            told.refused(Errno::Nodev);
            return Ok(());
        }
        let wanted = RequestWanted {
            queue: self.known_driver(queue),
            form: *form,
            busy: self.wants_made_buffer(form),
        };
        match self.drivers.get_mut(queue as usize) {
            Some(kept) => submit(told, &mut self.device.memory, pool, kept, &wanted),
            // There is no such queue.
            None => {
                told.refused(Errno::Inval);
                Ok(())
            }
        }
    }
}
