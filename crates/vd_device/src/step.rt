//! A line on a device.

ghost use Rattle.std.specs.Prelude.{◌≡◌, ◌+◌, ◌-◌, ◌^◌, ℕ, List, true, IsOk};
ghost use Rattle.vd_model.specs.Setting.{Setting};
ghost use Rattle.vd_model.specs.Creation.{Creation};
ghost use Rattle.vd_model.specs.Acts.{Act, Node, Driver};
ghost use Rattle.vd_model.specs.Turn.{lift};
ghost use Rattle.vd_model.specs.DriverTurns.{driver_turn};
ghost use Rattle.vd_model.specs.AreaTurns.{area_turn};
ghost use Rattle.vd_model.specs.History.{needs_session, needs_bus};
ghost use Rattle.vd_answers.specs.Tells.{MayTell};
ghost use Rattle.vd_control_path.specs.Stands as path;
ghost use Rattle.vd_memory_lines.specs.Rest.{KeepsRest};
ghost use Rattle.vd_memory_lines.specs.Frugal.{is_frugal_area_line, is_frugal_driver_line};
ghost use Rattle.vd_device.specs.Frugal.{takes_no_memory};
ghost use Rattle.vd_device.specs.Turns.{line_turn};

use crate::device::Device;
use std::alloc::AllocError;
use vd_answers::Hears;
use vd_model::{AreaStep, DevStep, DriverStep};
use vd_num::Errno;
use vd_pool::Pool;

impl Device {
    ghost use Rattle.vd_device.specs.Stands.{Stands, After, IsHeld, IsReached, IsWithin, KeepsOthers};

    /// Answers a line of the daemon on the memory, which needs a session.
    fn area<T: Hears>(
        &mut self,
        pool: &mut Pool,
        step: &AreaStep<'_>,
        told: &mut T,
    ) -> Result<(), AllocError>
        requires ready { T.is_ready told.old }
        requires held { IsHeld self.old pool.old }
        ensures line { (x : Setting) (made : Creation) (acts : List Act) → Stands x made acts self.old pool.old
            → MayTell (λ said. T.heard told.old said told.new)
            (needs_session acts (lift Node (area_turn x acts step.now)))
            (After x made acts self.new pool.new) result }
        ensures rest { KeepsRest self.old.memory self.new.memory pool.old pool.new }
        ensures path { self.new.path ≡ self.old.path }
        ensures frugal { is_frugal_area_line step.now ≡ true → IsOk result }
    {
        if !self.path.opened {
            told.refused(Errno::Badf);
            return Ok(());
        }
        self.memory.area_line(pool, step, told)
    }

    /// Answers a line of the driver, which needs a device on the bus.
    fn driver<T: Hears>(
        &mut self,
        pool: &mut Pool,
        step: &DriverStep<'_>,
        told: &mut T,
    ) -> Result<(), AllocError>
        requires ready { T.is_ready told.old }
        requires held { IsHeld self.old pool.old }
        requires reached { IsReached self.old pool.old }
        requires room { IsWithin (2 ^ 62 - 1) self.old }
        ensures line { (x : Setting) (made : Creation) (acts : List Act) → Stands x made acts self.old pool.old
            → MayTell (λ said. T.heard told.old said told.new)
            (needs_bus acts (lift Driver (driver_turn x acts step.now)))
            (After x made acts self.new pool.new) result }
        ensures rest { KeepsRest self.old.memory self.new.memory pool.old pool.new }
        ensures path { self.new.path ≡ self.old.path }
        ensures frugal { is_frugal_driver_line step.now ≡ true → IsOk result }
    {
        if !self.path.attached {
            told.refused(Errno::Nodev);
            return Ok(());
        }
        self.memory.driver_line(pool, step, told)
    }

    /// Answers a line. Whether it is of a ring or of a pending request was tested before.
    pub fn step<T: Hears>(
        &mut self,
        pool: &mut Pool,
        now: u64,
        step: &DevStep<'_>,
        told: &mut T,
    ) -> Result<(), AllocError>
        requires ready { T.is_ready told.old }
        requires held { IsHeld self.old pool.old }
        requires reached { IsReached self.old pool.old }
        requires room { IsWithin (2 ^ 62 - 1) self.old }
        ensures line { (x : Setting) (made : Creation) (acts : List Act) → Stands x made acts self.old pool.old
            → MayTell (λ said. T.heard told.old said told.new) (line_turn x made now acts step.now)
            (After x made acts self.new pool.new) result }
        ensures rest { KeepsOthers self.old self.new pool.old pool.new }
        ensures within { (most : ℕ) → IsWithin most self.old → IsWithin (most + 1) self.new }
        ensures frugal { takes_no_memory step.now ≡ true → IsOk result }
    {
        match step {
            DevStep::Node(line) => self.node(pool, line, told),
            DevStep::Area(line) => self.area(pool, line, told),
            DevStep::Bus(line) => self.bus(now, line, told),
            DevStep::Driver(line) => self.driver(pool, line, told),
        }
    }
}
