//! The lines of the device node.

ghost use Rattle.std.specs.Prelude.{◌≡◌, ◌+◌, ◌-◌, ◌^◌, ℕ, List, not, ◌&&◌, true, IsOk};
ghost use Rattle.vd_model.specs.Setting.{Setting};
ghost use Rattle.vd_model.specs.Creation.{Creation};
ghost use Rattle.vd_model.specs.Acts.{Act};
ghost use Rattle.vd_model.specs.NodeTurns.{opens, plain_turn, open_node_turn, node_turn};
ghost use Rattle.vd_answers.specs.Tells.{Tells, MayTell};
ghost use Rattle.vd_control_path.specs.Stands as path;
ghost use Rattle.vd_memory_lines.specs.Rest.{KeepsRest};
ghost use Rattle.vd_device.specs.Turns.{is_plain};

use crate::device::Device;
use std::alloc::AllocError;
use vd_answers::Hears;
use vd_model::NodeStep;
use vd_num::Errno;
use vd_pool::Pool;

/// Whether the line opens a session.
fn opens(step: &NodeStep) -> bool
    ensures { result ≡ opens step.now }
{
    matches!(step, NodeStep::Open)
}

impl Device {
    ghost use Rattle.vd_device.specs.Stands.{Stands, After, IsHeld, IsWithin};

    /// Whether the line needs a session where none is open.
    fn lacks_session(&self, step: &NodeStep) -> bool
        ensures { result ≡ (not (opens step.now) && not self.now.path.opened) }
    {
        !opens(step) && !self.path.opened
    }

    /// Answers a plain line, which may be what an ioctl stands for. An ioctl itself stands for none.
    pub(crate) fn plain_node<T: Hears>(&mut self, pool: &mut Pool, step: &NodeStep, told: &mut T)
        requires ready { T.is_ready told.old }
        requires held { IsHeld self.old pool.old }
        requires room { IsWithin (2 ^ 62 - 1) self.old }
        ensures line { (x : Setting) (made : Creation) (acts : List Act) → Stands x made acts self.old pool.old
            → Tells (λ said. T.heard told.old said told.new) (plain_turn made acts step.now)
            (After x made acts self.new pool.new) }
        ensures rest { KeepsRest self.old.memory self.new.memory pool.old pool.new }
        ensures path { (most : ℕ) → path.IsWithin most self.old.path →
            path.IsWithin (most + 1) self.new.path }
    {
        match step {
            NodeStep::Close => {
                self.close(pool);
                told.done();
            }
            NodeStep::Ioctl { .. } => told.refused(Errno::Inval),
            NodeStep::Open
            | NodeStep::Features
            | NodeStep::SetConfig { .. }
            | NodeStep::ConfigIrq
            | NodeStep::VqSetup { .. }
            | NodeStep::VqInfo { .. }
            | NodeStep::KickFd { .. }
            | NodeStep::Kicks { .. }
            | NodeStep::Irq { .. }
            | NodeStep::Recv
            | NodeStep::Answer { .. }
            | NodeStep::Read { .. }
            | NodeStep::Write { .. } => self.path.node_line(step, told),
        }
    }

    /// Answers a line that is no ioctl.
    fn one_node<T: Hears>(&mut self, pool: &mut Pool, step: &NodeStep, told: &mut T)
        requires ready { T.is_ready told.old }
        requires held { IsHeld self.old pool.old }
        requires room { IsWithin (2 ^ 62 - 1) self.old }
        requires form { is_plain step.now ≡ true }
        ensures line { (x : Setting) (made : Creation) (acts : List Act) → Stands x made acts self.old pool.old
            → Tells (λ said. T.heard told.old said told.new) (open_node_turn x made acts step.now)
            (After x made acts self.new pool.new) }
        ensures rest { KeepsRest self.old.memory self.new.memory pool.old pool.new }
        ensures path { (most : ℕ) → path.IsWithin most self.old.path →
            path.IsWithin (most + 1) self.new.path }
    {
        self.plain_node(pool, step, told);
    }

    /// Answers a line, where a session is open or the line opens one.
    fn open_node<T: Hears>(
        &mut self,
        pool: &mut Pool,
        step: &NodeStep,
        told: &mut T,
    ) -> Result<(), AllocError>
        requires ready { T.is_ready told.old }
        requires held { IsHeld self.old pool.old }
        requires room { IsWithin (2 ^ 62 - 1) self.old }
        ensures line { (x : Setting) (made : Creation) (acts : List Act) → Stands x made acts self.old pool.old
            → MayTell (λ said. T.heard told.old said told.new) (open_node_turn x made acts step.now)
            (After x made acts self.new pool.new) result }
        ensures rest { KeepsRest self.old.memory self.new.memory pool.old pool.new }
        ensures path { (most : ℕ) → path.IsWithin most self.old.path →
            path.IsWithin (most + 1) self.new.path }
        ensures frugal { is_plain step.now ≡ true → IsOk result }
    {
        match step {
            NodeStep::Ioctl { number, bytes } => {
                self.ioctl(pool, *number, bytes.as_slice(), told)
            }
            NodeStep::Open
            | NodeStep::Close
            | NodeStep::Features
            | NodeStep::SetConfig { .. }
            | NodeStep::ConfigIrq
            | NodeStep::VqSetup { .. }
            | NodeStep::VqInfo { .. }
            | NodeStep::KickFd { .. }
            | NodeStep::Kicks { .. }
            | NodeStep::Irq { .. }
            | NodeStep::Recv
            | NodeStep::Answer { .. }
            | NodeStep::Read { .. }
            | NodeStep::Write { .. } => {
                self.one_node(pool, step, told);
                Ok(())
            }
        }
    }

    /// Answers a line, which needs a session unless it opens one.
    pub(crate) fn node<T: Hears>(
        &mut self,
        pool: &mut Pool,
        step: &NodeStep,
        told: &mut T,
    ) -> Result<(), AllocError>
        requires ready { T.is_ready told.old }
        requires held { IsHeld self.old pool.old }
        requires room { IsWithin (2 ^ 62 - 1) self.old }
        ensures line { (x : Setting) (made : Creation) (acts : List Act) → Stands x made acts self.old pool.old
            → MayTell (λ said. T.heard told.old said told.new) (node_turn x made acts step.now)
            (After x made acts self.new pool.new) result }
        ensures rest { KeepsRest self.old.memory self.new.memory pool.old pool.new }
        ensures path { (most : ℕ) → path.IsWithin most self.old.path →
            path.IsWithin (most + 1) self.new.path }
        ensures frugal { is_plain step.now ≡ true → IsOk result }
    {
        if self.lacks_session(step) {
            told.refused(Errno::Badf);
            return Ok(());
        }
        self.open_node(pool, step, told)
    }
}
