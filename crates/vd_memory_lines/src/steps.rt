//! The lines by their forms.

ghost use Rattle.std.specs.Prelude.{◌≡◌, ◌<◌, ◌^◌, ℕ, List, true, IsOk};
ghost use Rattle.vd_model.specs.Setting.{Setting};
ghost use Rattle.vd_model.specs.Acts.{Act, Node, Driver};
ghost use Rattle.vd_model.specs.Turn.{lift};
ghost use Rattle.vd_model.specs.DriverTurns.{driver_turn};
ghost use Rattle.vd_model.specs.AreaTurns.{area_turn};
ghost use Rattle.vd_answers.specs.Tells.{Tells, MayTell};
ghost use Rattle.vd_memory_lines.specs.Frugal.{is_frugal_driver_line, is_frugal_area_line};

use crate::areas::Extent;
use crate::memory::Memory;
use std::alloc::AllocError;
use vd_answers::Hears;
use vd_model::{AreaStep, DriverStep, Want};
use vd_num::Range;
use vd_pool::Pool;

impl Memory {
    ghost use Rattle.vd_memory_lines.specs.Rest.{KeepsRest};
    ghost use Rattle.vd_memory_lines.specs.Stands.{Stands, After, IsHeld, IsReached};

    /// Answers a line of the driver.
    pub fn driver_line<T: Hears>(
        &mut self,
        pool: &mut Pool,
        step: &DriverStep<'_>,
        told: &mut T,
    ) -> Result<(), AllocError>
        requires ready { T.is_ready told.old }
        requires held { IsHeld self.old pool.old }
        requires reached { IsReached self.old pool.old }
        requires room { (self.old.domain.maps < 2 ^ 62) × (self.old.domain.made < 2 ^ 62) }
        ensures line { (x : Setting) (acts : List Act) → Stands x acts self.old pool.old →
            MayTell (λ said. T.heard told.old said told.new) (lift Driver (driver_turn x acts step.now))
            (After x acts self.new pool.new) result }
        ensures rest { KeepsRest self.old self.new pool.old pool.new }
        ensures free_of_memory { is_frugal_driver_line step.now ≡ true → IsOk result }
    {
        match step {
            DriverStep::Buf { bytes } => self.buf(bytes.as_slice(), told),
            DriverStep::Zeros { len } => self.zeros(*len, told),
            DriverStep::Peek {
                buffer,
                offset,
                len,
            } => self.peek(*buffer, *offset, *len, told),
            DriverStep::Map {
                buffer,
                offset,
                len,
                dir,
            } => {
                let want = Want {
                    buffer: *buffer,
                    offset: *offset,
                    len: *len,
                    dir: *dir,
                };
                self.map(pool, want, told)
            }
            DriverStep::Coherent { len } => self.coherent(*len, told),
            DriverStep::Cget {
                region,
                offset,
                len,
            } => self.cget(*region, *offset, *len, told),
            DriverStep::Free { .. }
            | DriverStep::Poke { .. }
            | DriverStep::Unmap { .. }
            | DriverStep::SyncDev { .. }
            | DriverStep::SyncCpu { .. }
            | DriverStep::FreeCoherent { .. }
            | DriverStep::Cput { .. } => {
                self.frugal_driver_line(pool, step, told);
                Ok(())
            }
        }
    }

    /// Answers a line of the driver that takes no memory.
    fn frugal_driver_line<T: Hears>(&mut self, pool: &mut Pool, step: &DriverStep<'_>, told: &mut T)
        requires ready { T.is_ready told.old }
        requires form { is_frugal_driver_line step.now ≡ true }
        requires held { IsHeld self.old pool.old }
        requires reached { IsReached self.old pool.old }
        ensures line { (x : Setting) (acts : List Act) → Stands x acts self.old pool.old →
            Tells (λ said. T.heard told.old said told.new) (lift Driver (driver_turn x acts step.now))
            (After x acts self.new pool.new) }
        ensures rest { KeepsRest self.old self.new pool.old pool.new }
    {
        match step {
            DriverStep::Free { buffer } => self.free(*buffer, told),
            DriverStep::Poke {
                buffer,
                offset,
                bytes,
            } => self.poke(*buffer, *offset, bytes.as_slice(), told),
            DriverStep::Unmap { mapping } => self.unmap(pool, *mapping, told),
            DriverStep::SyncDev { mapping } => self.syncdev(pool, *mapping, told),
            DriverStep::SyncCpu { mapping } => self.synccpu(pool, *mapping, told),
            DriverStep::FreeCoherent { region } => self.freecoherent(*region, told),
            DriverStep::Cput {
                region,
                offset,
                bytes,
            } => self.cput(*region, *offset, bytes.as_slice(), told),
            DriverStep::Buf { .. }
            | DriverStep::Zeros { .. }
            | DriverStep::Peek { .. }
            | DriverStep::Map { .. }
            | DriverStep::Coherent { .. }
            | DriverStep::Cget { .. } => unreachable!(),
        }
    }

    /// Answers a line of the daemon on the memory that it sees. That a session is open was tested before.
    pub fn area_line<T: Hears>(
        &mut self,
        pool: &mut Pool,
        step: &AreaStep<'_>,
        told: &mut T,
    ) -> Result<(), AllocError>
        requires ready { T.is_ready told.old }
        requires held { IsHeld self.old pool.old }
        ensures line { (x : Setting) (acts : List Act) → Stands x acts self.old pool.old →
            MayTell (λ said. T.heard told.old said told.new) (lift Node (area_turn x acts step.now))
            (After x acts self.new pool.new) result }
        ensures rest { KeepsRest self.old self.new pool.old pool.new }
        ensures free_of_memory { is_frugal_area_line step.now ≡ true → IsOk result }
    {
        match step {
            AreaStep::Area { bytes } => self.area(*bytes, told),
            AreaStep::AreaGet { offset, len } => self.areaget(*offset, *len, told),
            AreaStep::Load { addr, len } => self.load(pool, *addr, *len, told),
            AreaStep::Lookup { .. }
            | AreaStep::IovaInfo { .. }
            | AreaStep::AreaPut { .. }
            | AreaStep::RegUmem { .. }
            | AreaStep::DeregUmem { .. }
            | AreaStep::Store { .. } => {
                self.frugal_area_line(pool, step, told);
                Ok(())
            }
        }
    }

    /// Answers a line of the daemon that takes no memory.
    fn frugal_area_line<T: Hears>(&mut self, pool: &mut Pool, step: &AreaStep<'_>, told: &mut T)
        requires ready { T.is_ready told.old }
        requires form { is_frugal_area_line step.now ≡ true }
        requires held { IsHeld self.old pool.old }
        ensures line { (x : Setting) (acts : List Act) → Stands x acts self.old pool.old →
            Tells (λ said. T.heard told.old said told.new) (lift Node (area_turn x acts step.now))
            (After x acts self.new pool.new) }
        ensures rest { KeepsRest self.old self.new pool.old pool.new }
    {
        match step {
            AreaStep::Lookup { start, last } => self.lookup(range(*start, *last), told),
            AreaStep::IovaInfo { start, last } => self.iovainfo(range(*start, *last), told),
            AreaStep::AreaPut { offset, bytes } => self.areaput(*offset, bytes.as_slice(), told),
            AreaStep::RegUmem { uaddr, iova, size } => {
                self.regumem(pool, *uaddr, extent(*iova, *size), told)
            }
            AreaStep::DeregUmem { iova, size } => {
                self.deregumem(pool, extent(*iova, *size), told)
            }
            AreaStep::Store { addr, bytes } => self.store(pool, *addr, bytes.as_slice(), told),
            AreaStep::Area { .. } | AreaStep::AreaGet { .. } | AreaStep::Load { .. } => {
                unreachable!()
            }
        }
    }
}

fn range(start: u64, last: u64) -> Range
    ensures { result ≡ record { start = start; last = last } }
{
    Range { start, last }
}

fn extent(iova: u64, size: u64) -> Extent
    ensures { result ≡ record { iova = iova; size = size } }
{
    Extent { iova, size }
}
