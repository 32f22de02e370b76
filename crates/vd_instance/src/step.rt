//! A line on a device and its queues.

ghost use Rattle.std.specs.Prelude.{◌≡◌, ◌+◌, ◌-◌, ◌^◌, ◌≤◌, ℕ, List, true, false, IsOk, IfOk, OnErr, MatchResult};
ghost use Rattle.std.specs.Option.{option_map};
ghost use Rattle.vd_io.specs.Told.{Rose};
ghost use Rattle.vd_pool.specs.Memory.{PoolMemory};
ghost use Rattle.vd_model.specs.declared.step.DevStep.TheVariants.{Driver};
ghost use Rattle.vd_model.specs.Setting.{Setting};
ghost use Rattle.vd_model.specs.Creation.{Creation};
ghost use Rattle.vd_model.specs.Acts.{Act};
ghost use Rattle.vd_model.specs.Deeds.{Seen};
ghost use Rattle.vd_model.specs.History.{dev_turn, queue_turn, is_kept};
ghost use Rattle.vd_answers.specs.Tells.{MayTell};
ghost use Rattle.vd_device.specs.Frugal.{takes_no_memory};

use crate::drivers::{has_region, owns_buffer, owns_map};
use crate::instance::Instance;
use crate::line::RingLine;
use crate::service::DaemonLine;
use std::alloc::AllocError;
use vd_answers::Hears;
use vd_io::Image;
use vd_model::{DevStep, DriverStep, QueueStep, Window};
use vd_num::Errno;
use vd_pool::Pool;

/// A line on a queue, and the sectors of the image that the device has: a count of 0 where it has none.
#[derive(Clone, Copy)]
pub struct QueueLine<'a> {
    pub step: &'a QueueStep,
    pub window: Window,
}

impl Instance {
    ghost use Rattle.vd_daemon_lines.specs.Disk.{stored_over};
    ghost use Rattle.vd_instance.specs.Image.{IsWindow, Plays, is_execute};
    ghost use Rattle.vd_instance.specs.Flushes.{is_flush};
    ghost use Rattle.vd_instance.specs.Lines.{takes_kept};
    ghost use Rattle.vd_instance.specs.Stands.{Stands, StandsForMore, After, IsHeld, IsReached, IsNamed, IsWithin, KeepsOthers};

    /// Whether a line of the driver on a device on the bus is on what belongs to a queue: the region of a ring, and a buffer or
    /// a mapping of a pending request.
    fn is_kept(&self, step: &DriverStep<'_>) -> bool
        ensures { (x : Setting) (made : Creation) (acts : List Act) (m : PoolMemory) →
            Stands x made acts self.now m → result ≡ is_kept made acts step.now }
    {
        match step {
            DriverStep::Map { buffer, .. } => owns_buffer(&self.drivers, *buffer),
            DriverStep::Unmap { mapping } => owns_map(&self.drivers, *mapping),
            DriverStep::FreeCoherent { region } => has_region(&self.drivers, *region),
            _ => false,
        }
    }

    /// The same of any line on the device.
    fn takes_kept(&self, step: &DevStep<'_>) -> bool
        ensures { (x : Setting) (made : Creation) (acts : List Act) (m : PoolMemory) →
            Stands x made acts self.now m → result ≡ takes_kept made acts step.now }
    {
        match step {
            DevStep::Driver(line) => self.device.path.attached && self.is_kept(line),
            _ => false,
        }
    }

    /// Answers a line on the device.
    pub fn step<T: Hears>(
        &mut self,
        pool: &mut Pool,
        now: u64,
        step: &DevStep<'_>,
        told: &mut T,
    ) -> Result<(), AllocError>
        requires ready { T.is_ready told.old }
        requires held { IsHeld self.old pool.old }
        requires reached { IsReached self.old pool.old }
        requires room { IsWithin (2 ^ 59) self.old }
        ensures line { (x : Setting) (made : Creation) (seen : Seen) →
            Stands x made seen.acts self.old pool.old → seen.now ≡ now
            → MayTell (λ said. T.heard told.old said told.new) (dev_turn x made seen step.now)
            (After x made seen.acts self.new pool.new) result }
        ensures rest { KeepsOthers self.old self.new pool.old pool.new }
        ensures within { (most : ℕ) → IsWithin most self.old → IsWithin (most + 1) self.new }
        ensures named { (name : List ℕ) → IsNamed name self.old → IsNamed name self.new }
        ensures frugal { takes_no_memory step.now ≡ true → IsOk result }
    {
        if self.takes_kept(step) {
            told.refused(Errno::Busy);
            return Ok(());
        }
        self.device.step(pool, now, step, told)
    }

    /// Answers a line on one of its queues that leaves the image alone.
    fn plain_queue_step<T: Hears>(
        &mut self,
        pool: &mut Pool,
        step: &QueueStep,
        told: &mut T,
    ) -> Result<(), AllocError>
        requires ready { T.is_ready told.old }
        requires held { IsHeld self.old pool.old }
        requires reached { IsReached self.old pool.old }
        requires room { IsWithin (2 ^ 59) self.old }
        requires plain { is_execute step.now ≡ false }
        ensures line { (x : Setting) (made : Creation) (name : List ℕ) (seen : Seen) →
            Stands x made seen.acts self.old pool.old
            → MayTell (λ said. T.heard told.old said told.new) (queue_turn x made name seen false step.now)
            (After x made seen.acts self.new pool.new) result }
        ensures named { (name : List ℕ) → IsNamed name self.old → IsNamed name self.new }
        ensures rest { KeepsOthers self.old self.new pool.old pool.new }
        ensures within { (most : ℕ) → IsWithin most self.old → IsWithin (most + 1) self.new }
    {
        match step {
            QueueStep::Walk { queue, head } => self.walk(pool, *queue, *head, told),
            QueueStep::Ring { queue, size } => self.make_ring(*queue, *size, told),
            QueueStep::Unring { queue } => {
                self.on_ring(pool, *queue, RingLine::Unring, told);
                Ok(())
            }
            QueueStep::Add { queue, parts } => self.add(pool, *queue, parts.as_slice(), told),
            QueueStep::Publish { queue } => {
                self.on_ring(pool, *queue, RingLine::Publish, told);
                Ok(())
            }
            QueueStep::Poll { queue } => {
                self.on_ring(pool, *queue, RingLine::Poll, told);
                Ok(())
            }
            QueueStep::Fetch { queue } => self.on_daemon(pool, *queue, DaemonLine::Fetch, told),
            QueueStep::Finish { queue } => self.on_daemon(pool, *queue, DaemonLine::Finish, told),
            QueueStep::Submit { queue, form } => self.submit(pool, *queue, form, told),
            QueueStep::Execute { .. } => unreachable!(),
        }
    }

    /// Answers a line on one of its queues, and whether the image failed at it.
    pub fn queue_step<T: Hears, I: Image>(
        &mut self,
        pool: &mut Pool,
        disk: &mut I,
        line: QueueLine<'_>,
        told: &mut T,
    ) -> Result<bool, AllocError>
        requires ready { T.is_ready told.old }
        requires held { IsHeld self.old pool.old }
        requires reached { IsReached self.old pool.old }
        requires room { IsWithin (2 ^ 59) self.old }
        requires window { line.window.first + line.window.count ≤ I.size disk.old }

        // An execute is answered on an image that tells the bytes that the line sees.
        ensures line { (x : Setting) (made : Creation) (name : List ℕ) (seen : Seen) →
            Stands x made seen.acts self.old pool.old
            → (is_execute line.entry.step.now ≡ true → IsNamed name self.old
            × IsWindow (I.content disk.old) line.entry.window seen)
            → Plays (λ said. T.heard told.old said told.new)
            (λ failed. queue_turn x made name seen failed line.entry.step.now)
            (After x made seen.acts self.new pool.new) result }
        ensures content { (x : Setting) (made : Creation) (name : List ℕ) (seen : Seen) →
            is_execute line.entry.step.now ≡ true
            → Stands x made seen.acts self.old pool.old → IsNamed name self.old →
            IsWindow (I.content disk.old) line.entry.window seen
            → IfOk result (λ failed. I.content disk.new ≡ option_map
            (stored_over line.entry.window (queue_turn x made name seen failed line.entry.step.now).acts)
            (I.content disk.old)) }

        // Whatever the image tells, it stands for some acts more.
        ensures more { (x : Setting) (made : Creation) (acts : List Act) → Stands x made acts self.old pool.old
            → MatchResult result (λ _. StandsForMore x made acts self.new pool.new)
            (λ _. Stands x made acts self.new pool.new) }

        // Only an execute touches the image.
        ensures only_execute { is_execute line.entry.step.now ≡ false →
            (disk.new ≡ disk.old) × IfOk result (λ failed. failed ≡ false) }
        ensures kept { OnErr result (disk.new ≡ disk.old) }
        ensures size { I.size disk.new ≡ I.size disk.old }
        ensures later { I.faults disk.old ≤ I.faults disk.new }
        ensures cause { IfOk result (λ failed. failed ≡ true → Rose (I.faults disk.old) (I.faults disk.new)) }

        // A flush ends with status 0 only where the count of flushes rose.
        ensures flushed { (x : Setting) (made : Creation) (name : List ℕ) (seen : Seen) →
            Stands x made seen.acts self.old pool.old
            → IsNamed name self.old → IsWindow (I.content disk.old) line.entry.window seen
            → IfOk result (λ failed. is_flush x seen.acts line.entry.step.now
            (queue_turn x made name seen failed line.entry.step.now).answer ≡ true
            → Rose (I.flushes disk.old) (I.flushes disk.new)) }
        ensures flushes { I.flushes disk.old ≤ I.flushes disk.new }
        ensures named { (name : List ℕ) → IsNamed name self.old → IsNamed name self.new }
        ensures rest { KeepsOthers self.old self.new pool.old pool.new }
        ensures within { (most : ℕ) → IsWithin most self.old → IsWithin (most + 1) self.new }
    {
        if let QueueStep::Execute { queue } = line.step {
            return Ok(self.execute(disk, line.window, *queue, told));
        }
        match self.plain_queue_step(pool, line.step, told) {
            Err(AllocError) => Err(AllocError),
            Ok(()) => Ok(false),
        }
    }
}
