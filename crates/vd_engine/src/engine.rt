//! The engine: all devices, by their names.

ghost use Rattle.std.specs.Prelude.{List, ◌≡◌, ◌<◌, ◌≤◌, ◌^◌, ◌+◌, ◌∷◌, [], IfOk, IsOk, OnOk, OnErr, true, false};
ghost use Rattle.vd_io.specs.Told.{Rose};
ghost use Rattle.vd_model.specs.Setting.{Setting};
ghost use Rattle.vd_model.specs.Deeds.{Deed};
ghost use Rattle.vd_model.specs.History.{History, deeds_of, outcome, reply};
ghost use Rattle.vd_device.specs.Sizes.{AreFit, IsSized};
ghost use Rattle.vd_engine.specs.Frugal.{is_frugal, is_execution};
ghost use Rattle.vd_engine.specs.Does.{plain_of};

use crate::devices::Named;
use crate::windows::Given;
use std::alloc::{AllocError, Global};
use vd_answers::{Hears, Kept};
use vd_device::Sizes;
use vd_io::Image;
use vd_model::{Answer, Items, Step};
use vd_pool::Pool;

/// The answer to a step, and whether the image failed at it.
#[derive(Drop)]
pub struct Stepped {
    pub answer: Answer,
    pub disk_failed: bool,
}

/// How a line ends that leaves the image alone, at which it can't fail.
fn plain(done: Result<(), AllocError>) -> Result<bool, AllocError>
    ensures { result ≡ plain_of done }
{
    match done {
        Err(AllocError) => Err(AllocError),
        Ok(()) => Ok(false),
    }
}

/// The engine. Its devices hold frames of its pool, so it can't be dropped: `end` gives them back.
pub struct Engine {
    pub alloc: Global,
    pub sizes: Sizes,
    /// How many sectors the image has, and those that names have, for the whole run.
    pub sectors: u64,
    pub windows: Vec<Given>,
    pub pool: Pool,
    pub devices: Vec<Named>,
    /// The time in seconds, and how many steps were asked.
    pub now: u64,
    pub asked: u64,
}

impl Engine {
    ghost use Rattle.vd_engine.specs.Flushes.{Counts, is_flush_step};
    ghost use Rattle.vd_engine.specs.Image.{IsImage, HoldsOwn};
    ghost use Rattle.vd_engine.specs.Machine.{StandsFor, StandsAt, IsReached, frames_out};
    ghost use Rattle.vd_engine.specs.Does.{Serves, Goes};

    /// An engine without devices, each of which will have these sizes, for an image of so many sectors.
    pub fn new(alloc: Global, sizes: Sizes, sectors: u64) -> Engine
        requires { AreFit sizes }
        ensures stands { (x : Setting) → IsSized x sizes → x.sectors ≡ sectors → StandsFor x [] result }
        ensures reached { IsReached result }
        ensures sectors { result.sectors ≡ sectors }
        ensures asked { result.asked ≡ 0 }
    {
        Engine {
            alloc,
            sizes,
            sectors,
            windows: Vec::new(alloc),
            pool: Pool::new(alloc, sizes.per_page),
            devices: Vec::new(alloc),
            now: 0,
            asked: 0,
        }
    }

    /// Answers a step, and whether the image failed at it.
    fn answer<I: Image, T: Hears>(
        &mut self,
        disk: &mut I,
        step: &Step<'_>,
        told: &mut T,
    ) -> Result<bool, AllocError>
        requires ready { T.is_ready told.old }
        requires room { self.old.asked < 2 ^ 40 }
        requires reached { IsReached self.old }
        requires disk { I.size disk.old ≡ self.old.sectors }
        ensures line { Serves (λ said. T.heard told.old said told.new)
            (λ x done failed. outcome x done step.now failed) (is_execution step.now)
            self.old self.new (I.size disk.old) (I.content disk.old) (I.content disk.new) result }
        ensures only_execute { is_execution step.now ≡ false →
            (disk.new ≡ disk.old) × IfOk result (λ failed. failed ≡ false) }
        ensures kept { OnErr result (disk.new ≡ disk.old) }
        ensures size { I.size disk.new ≡ I.size disk.old }
        ensures later { I.faults disk.old ≤ I.faults disk.new }
        ensures cause { IfOk result (λ failed. failed ≡ true → Rose (I.faults disk.old) (I.faults disk.new)) }
        ensures flushed { (x : Setting) (done : List Deed) → StandsAt x done self.old.asked self.old →
            HoldsOwn x done → IsImage x done (I.size disk.old) (I.content disk.old) →
            Counts result (λ failed. is_flush_step x done step.now (outcome x done step.now failed).answer)
            (I.flushes disk.old) (I.flushes disk.new) }
        ensures flushes { I.flushes disk.old ≤ I.flushes disk.new }
        ensures frugal { is_frugal step.now ≡ true → IsOk result }
    {
        match step {
            Step::Control(step) => plain(self.control(step, told)),
            Step::Device { name, step } => plain(self.on_device(name.as_slice(), step, told)),
            Step::Queue { name, step } => self.on_queue(disk, name.as_slice(), step, told),
        }
    }

    /// Tells the answer to a step as the history machine gives it, and stands for the history with that step then. It
    /// answers whether the image failed. An image that held what the history stored holds it then with that step. After want
    /// of memory engine and image are as before, and what was heard isn't said.
    pub fn play<I: Image, T: Hears>(
        &mut self,
        disk: &mut I,
        step: &Step<'_>,
        told: &mut T,
    ) -> Result<bool, AllocError>
        requires ready { T.is_ready told.old }
        requires room { self.old.asked < 2 ^ 40 }
        requires reached { IsReached self.old }
        requires disk { I.size disk.old ≡ self.old.sectors }
        ensures ok { (x : Setting) (h : History) → StandsFor x h self.old →
            (is_execution step.now ≡ true → IsImage x (deeds_of x h) (I.size disk.old) (I.content disk.old)) →
            IfOk result (λ failed. Goes x (λ said. T.heard told.old said told.new) h step.now failed self.new) }
        ensures image { (x : Setting) (h : History) → StandsFor x h self.old →
            IsImage x (deeds_of x h) (I.size disk.old) (I.content disk.old) →
            IfOk result (λ failed. IsImage x (deeds_of x (record { step = step.now; failed = failed } ∷ h))
            (I.size disk.new) (I.content disk.new)) }
        ensures err { (x : Setting) (h : History) → StandsFor x h self.old →
            OnErr result (StandsFor x h self.new) }
        ensures reached { IsReached self.new }
        ensures asked { OnOk result (self.new.asked ≡ self.old.asked + 1) }
        ensures still_asked { OnErr result (self.new.asked ≡ self.old.asked) }
        ensures sectors { self.new.sectors ≡ self.old.sectors }

        // Only an execute touches the image.
        ensures only_execute { is_execution step.now ≡ false →
            (disk.new ≡ disk.old) × IfOk result (λ failed. failed ≡ false) }
        ensures kept { OnErr result (disk.new ≡ disk.old) }
        ensures size { I.size disk.new ≡ I.size disk.old }
        ensures later { I.faults disk.old ≤ I.faults disk.new }
        ensures cause { IfOk result (λ failed. failed ≡ true → Rose (I.faults disk.old) (I.faults disk.new)) }

        // A flush that is told as done was made, as far as the count of flushes can tell.
        ensures flushed { (x : Setting) (h : History) → StandsFor x h self.old →
            IsImage x (deeds_of x h) (I.size disk.old) (I.content disk.old) →
            Counts result (λ failed. is_flush_step x (deeds_of x h) step.now (reply x h step.now failed))
            (I.flushes disk.old) (I.flushes disk.new) }
        ensures flushes { I.flushes disk.old ≤ I.flushes disk.new }

        // These lines are never answered for want of memory.
        ensures frugal { is_frugal step.now ≡ true → IsOk result }
    {
        match self.answer(disk, step, told) {
            Err(AllocError) => Err(AllocError),
            Ok(failed) => {
                self.asked += 1;
                Ok(failed)
            }
        }
    }

    /// The answer to a step as the history machine gives it; the engine stands for the history with that step then. After
    /// want of memory it stands as before.
    pub fn step<I: Image>(&mut self, disk: &mut I, step: &Step<'_>) -> Result<Stepped, AllocError>
        requires room { self.old.asked < 2 ^ 40 }
        requires reached { IsReached self.old }
        requires disk { I.size disk.old ≡ self.old.sectors }
        ensures ok { (x : Setting) (h : History) → StandsFor x h self.old →
            (is_execution step.now ≡ true → IsImage x (deeds_of x h) (I.size disk.old) (I.content disk.old)) →
            IfOk result (λ s. Goes x (λ said. s.answer ≡ said) h step.now s.disk_failed self.new) }
        ensures image { (x : Setting) (h : History) → StandsFor x h self.old →
            IsImage x (deeds_of x h) (I.size disk.old) (I.content disk.old) →
            IfOk result (λ s. IsImage x (deeds_of x (record { step = step.now; failed = s.disk_failed } ∷ h))
            (I.size disk.new) (I.content disk.new)) }
        ensures err { (x : Setting) (h : History) → StandsFor x h self.old →
            OnErr result (StandsFor x h self.new) }
        ensures reached { IsReached self.new }
        ensures asked { OnOk result (self.new.asked ≡ self.old.asked + 1) }
        ensures still_asked { OnErr result (self.new.asked ≡ self.old.asked) }
        ensures sectors { self.new.sectors ≡ self.old.sectors }

        // Only an execute touches the image, and without memory nothing does.
        ensures only_execute { is_execution step.now ≡ false →
            (disk.new ≡ disk.old) × IfOk result (λ s. s.disk_failed ≡ false) }
        ensures kept { OnErr result (disk.new ≡ disk.old) }
        ensures size { I.size disk.new ≡ I.size disk.old }
        ensures later { I.faults disk.old ≤ I.faults disk.new }
        ensures cause { IfOk result
            (λ s. s.disk_failed ≡ true → Rose (I.faults disk.old) (I.faults disk.new)) }
        ensures flushes { I.flushes disk.old ≤ I.flushes disk.new }
    {
        let mut kept = Kept::new(self.alloc)?;
        let disk_failed = self.play(disk, step, &mut kept)?;
        let answer = match kept.answer.take() {
            Some(answer) => answer,
            // Each step is answered, but over an image that tells nothing no clause says it of an execute.
            None => Answer::Done(Items::new(self.alloc)),
        };
        Ok(Stepped {
            answer,
            disk_failed,
        })
    }

    /// Gives every frame back, and ends: the pool has them all again.
    pub fn end(self) -> Pool
        requires { IsReached self }
        ensures { result.spare ≡ self.pool.spare + frames_out self.devices.items }
    {
        let Engine {
            alloc: _,
            sizes: _,
            sectors: _,
            windows: _,
            mut pool,
            mut devices,
            now: _,
            asked: _,
        } = self;
        while let Some(named) = devices.pop() {
            let Named { name: _, instance } = named;
            instance.discard(&mut pool);
        }
        devices.destroy_empty();
        pool
    }
}
