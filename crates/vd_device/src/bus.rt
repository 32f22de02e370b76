//! The lines of the bus.

ghost use Rattle.std.specs.Prelude.{◌≡◌, ◌+◌, ◌-◌, ◌^◌, ℕ, List, not, ◌&&◌, true, IsOk};
ghost use Rattle.vd_pool.specs.Memory.{PoolMemory};
ghost use Rattle.vd_model.specs.Setting.{Setting};
ghost use Rattle.vd_model.specs.Creation.{Creation};
ghost use Rattle.vd_model.specs.Acts.{Act};
ghost use Rattle.vd_model.specs.BusTurns.{needs_attachment, attached_turn, bus_turn, detach_turn, reset_turn, is_busy};
ghost use Rattle.vd_answers.specs.Tells.{Tells, MayTell};
ghost use Rattle.vd_control_path.specs.Stands as path;
ghost use Rattle.vd_memory_lines.specs.Rest.{KeepsFrames};
ghost use Rattle.vd_device.specs.Frugal.{is_kick};

use crate::device::Device;
use std::alloc::AllocError;
use vd_answers::Hears;
use vd_message_lines::send;
use vd_model::{Body, BusStep};
use vd_num::Errno;
use vd_state_lines::bus_line;

/// Whether the line needs a device on the bus.
fn needs_attachment(step: &BusStep) -> bool
    ensures { result ≡ needs_attachment step.now }
{
    !matches!(
        step,
        BusStep::Attach | BusStep::Timeout { .. } | BusStep::Take { .. }
    )
}

impl Device {
    ghost use Rattle.vd_device.specs.Stands.{Stands, After, IsWithin};

    /// Whether the line needs a device on the bus, which this one isn't.
    fn lacks_bus(&self, step: &BusStep) -> bool
        ensures { result ≡ (needs_attachment step.now && not self.now.path.attached) }
    {
        needs_attachment(step) && !self.path.attached
    }

    /// Whether something of the driver's is left: a mapping, a coherent region, or a message that wasn't taken.
    fn is_busy(&self) -> bool
        ensures { (x : Setting) (made : Creation) (acts : List Act) (m : PoolMemory) →
            Stands x made acts self.now m → result ≡ is_busy acts }
    {
        self.memory.is_live() || self.path.messages.untaken() > 0
    }

    /// Takes the device off the bus and resets it, unless something of the driver's is left.
    fn detach<T: Hears>(&mut self, told: &mut T)
        requires ready { T.is_ready told.old }
        requires room { IsWithin (2 ^ 62 - 1) self.old }
        ensures line { (x : Setting) (made : Creation) (acts : List Act) (m : PoolMemory) →
            Stands x made acts self.old m
            → Tells (λ said. T.heard told.old said told.new) (detach_turn acts) (After x made acts self.new m) }
        ensures rest { KeepsFrames self.old.memory self.new.memory }
        ensures path { (most : ℕ) → path.IsWithin most self.old.path →
            path.IsWithin (most + 1) self.new.path }
    {
        if self.is_busy() {
            told.refused(Errno::Busy);
            return;
        }
        self.path.detach();
        self.clear();
        told.done();
    }

    /// Asks for a reset. A broken device refuses it, and is reset at once.
    fn reset<T: Hears>(&mut self, now: u64, told: &mut T) -> Result<(), AllocError>
        requires ready { T.is_ready told.old }
        requires room { IsWithin (2 ^ 62 - 1) self.old }
        ensures line { (x : Setting) (made : Creation) (acts : List Act) (m : PoolMemory) →
            Stands x made acts self.old m
            → MayTell (λ said. T.heard told.old said told.new) (reset_turn now acts)
            (After x made acts self.new m) result }
        ensures rest { KeepsFrames self.old.memory self.new.memory }
        ensures path { (most : ℕ) → path.IsWithin most self.old.path →
            path.IsWithin (most + 1) self.new.path }
    {
        if self.path.messages.broken() {
            self.clear();
            told.refused(Errno::Io);
            return Ok(());
        }
        send(
            &mut self.path.messages,
            Body::Status { value: 0 },
            now,
            told,
        )
    }

    /// Answers a line of a device that is on the bus, where the line needs that.
    fn attached<T: Hears>(
        &mut self,
        now: u64,
        step: &BusStep,
        told: &mut T,
    ) -> Result<(), AllocError>
        requires ready { T.is_ready told.old }
        requires room { IsWithin (2 ^ 62 - 1) self.old }
        ensures line { (x : Setting) (made : Creation) (acts : List Act) (m : PoolMemory) →
            Stands x made acts self.old m
            → MayTell (λ said. T.heard told.old said told.new) (attached_turn made now acts step.now)
            (After x made acts self.new m) result }
        ensures rest { KeepsFrames self.old.memory self.new.memory }
        ensures path { (most : ℕ) → path.IsWithin most self.old.path →
            path.IsWithin (most + 1) self.new.path }
        ensures frugal { is_kick step.now ≡ true → IsOk result }
    {
        match step {
            BusStep::Detach => {
                self.detach(told);
                Ok(())
            }
            BusStep::Reset => self.reset(now, told),
            BusStep::Take { id } => {
                self.take(*id, told);
                Ok(())
            }
            // It is answered by the state alone, which takes no memory.
            BusStep::Kick { .. } => {
                bus_line(&mut self.path.state, now, step, told);
                Ok(())
            }
            BusStep::Attach
            | BusStep::Offered
            | BusStep::SetFeatures { .. }
            | BusStep::GetStatus
            | BusStep::SetStatus { .. }
            | BusStep::VqNum { .. }
            | BusStep::VqAddr { .. }
            | BusStep::VqReady { .. }
            | BusStep::SetVqState { .. }
            | BusStep::GetVqState { .. }
            | BusStep::Callback { .. }
            | BusStep::Irqs { .. }
            | BusStep::GetConfig { .. }
            | BusStep::Timeout { .. } => self.path.bus_line(now, step, told),
        }
    }

    /// Answers a line, most of which need a device on the bus.
    pub(crate) fn bus<T: Hears>(
        &mut self,
        now: u64,
        step: &BusStep,
        told: &mut T,
    ) -> Result<(), AllocError>
        requires ready { T.is_ready told.old }
        requires room { IsWithin (2 ^ 62 - 1) self.old }
        ensures line { (x : Setting) (made : Creation) (acts : List Act) (m : PoolMemory) →
            Stands x made acts self.old m
            → MayTell (λ said. T.heard told.old said told.new) (bus_turn made now acts step.now)
            (After x made acts self.new m) result }
        ensures rest { KeepsFrames self.old.memory self.new.memory }
        ensures path { (most : ℕ) → path.IsWithin most self.old.path →
            path.IsWithin (most + 1) self.new.path }
        ensures frugal { is_kick step.now ≡ true → IsOk result }
    {
        if self.lacks_bus(step) {
            told.refused(Errno::Nodev);
            return Ok(());
        }
        self.attached(now, step, told)
    }
}
