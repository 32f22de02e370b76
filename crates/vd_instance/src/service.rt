//! The block daemon's lines on a queue, which need a session.

ghost use Rattle.std.specs.Prelude.{◌≡◌, ◌&&◌, ◌+◌, ◌-◌, ◌^◌, ◌≤◌, ℕ, List, false, true};
ghost use Rattle.std.specs.Option.{option_map};
ghost use Rattle.vd_pool.specs.Memory.{PoolMemory};
ghost use Rattle.vd_io.specs.Told.{Rose};
ghost use Rattle.vd_model.specs.Setting.{Setting};
ghost use Rattle.vd_model.specs.Creation.{Creation};
ghost use Rattle.vd_model.specs.Acts.{Act};
ghost use Rattle.vd_model.specs.BusTurns.{is_missing};
ghost use Rattle.vd_model.specs.Deeds.{Seen};
ghost use Rattle.vd_model.specs.DaemonTurns.{execute_turn};
ghost use Rattle.vd_model.specs.History.{needs_session, disk_of};
ghost use Rattle.vd_answers.specs.Tells.{Tells, MayTell};
ghost use Rattle.vd_control_path.specs.Ends.{ends_of};
ghost use Rattle.vd_memory_lines.specs.Rest.{KeepsRest};
ghost use Rattle.vd_daemon_lines.specs.Known.{IsKnown};
ghost use Rattle.vd_daemon_lines.specs.Disk.{stored_over};

use crate::instance::Instance;
use crate::known::known;
use std::alloc::AllocError;
use vd_answers::Hears;
use vd_daemon_lines::{Drive, KnownQueue, execute, fetch, finish};
use vd_io::Image;
use vd_model::Window;
use vd_num::Errno;
use vd_pool::Pool;

/// A line of the block daemon on the memory of the device.
#[derive(Clone, Copy, Debug)]
pub(crate) enum DaemonLine {
    Fetch,
    Finish,
}

impl Instance {
    ghost use Rattle.vd_instance.specs.Image.{IsWindow};
    ghost use Rattle.vd_instance.specs.Flushes.{holds_flush, is_fine};
    ghost use Rattle.vd_instance.specs.Lines.{daemon_line_turn};
    ghost use Rattle.vd_instance.specs.Stands.{Stands, StandsForMore, After, IsHeld, IsReached, IsNamed, IsWithin};

    /// How many positions of the block daemon ended on a queue that is there.
    fn ends(&self, queue: u32) -> u64
        requires room { IsWithin (2 ^ 59) self.now }
        ensures { (x : Setting) (made : Creation) (acts : List Act) (m : PoolMemory) → Stands x made acts self.now m
            → is_missing made queue ≡ false → result ≡ ends_of acts queue }
    {
        let generation = self.device.path.state.generation(queue);
        self.device.path.closings.wrapping_add(generation)
    }

    /// What is known of a queue, and which features the driver accepted.
    fn served_queue(&self, queue: u32) -> KnownQueue
        ensures { (x : Setting) (made : Creation) (acts : List Act) (m : PoolMemory) → Stands x made acts self.now m
            → IsKnown made acts queue result }
    {
        KnownQueue {
            info: known(&self.device.path.state, queue),
            features: self.device.path.state.features(),
        }
    }

    /// Answers a line of the block daemon on a queue.
    pub(crate) fn on_daemon<T: Hears>(
        &mut self,
        pool: &mut Pool,
        queue: u32,
        line: DaemonLine,
        told: &mut T,
    ) -> Result<(), AllocError>
        requires ready { T.is_ready told.old }
        requires held { IsHeld self.old pool.old }
        requires reached { IsReached self.old pool.old }
        requires room { IsWithin (2 ^ 59) self.old }
        ensures line { (x : Setting) (made : Creation) (acts : List Act) → Stands x made acts self.old pool.old
            → MayTell (λ said. T.heard told.old said told.new)
            (needs_session acts (daemon_line_turn x made acts queue line))
            (After x made acts self.new pool.new) result }
        ensures rest { KeepsRest self.old.device.memory self.new.device.memory pool.old pool.new }
        ensures path { self.new.device.path ≡ self.old.device.path }
        ensures named { (name : List ℕ) → IsNamed name self.old → IsNamed name self.new }
    {
        if !self.device.path.opened {
            told.refused(Errno::Badf);
            return Ok(());
        }
        let ends = self.ends(queue);
        let known = self.served_queue(queue);
        let domain = &mut self.device.memory.domain;
        match self.daemons.get_mut(queue as usize) {
            Some(kept) => {
                kept.renew(ends);
                match line {
                    DaemonLine::Fetch => fetch(told, domain, pool, &mut kept.daemon, &known),
                    DaemonLine::Finish => {
                        finish(told, domain, pool, &mut kept.daemon, &known);
                        Ok(())
                    }
                }
            }
            // There is no such queue.
            None => {
                told.refused(Errno::Inval);
                Ok(())
            }
        }
    }

    /// Executes the request in hand on a window of the image, and answers whether the image failed.
    pub(crate) fn execute<T: Hears, I: Image>(
        &mut self,
        disk: &mut I,
        window: Window,
        queue: u32,
        told: &mut T,
    ) -> bool
        requires ready { T.is_ready told.old }
        requires room { IsWithin (2 ^ 59) self.old }
        requires window { window.first + window.count ≤ I.size disk.old }
        ensures line { (x : Setting) (made : Creation) (name : List ℕ) (seen : Seen) (m : PoolMemory) →
            Stands x made seen.acts self.old m
            → IsNamed name self.old → IsWindow (I.content disk.old) window seen
            → Tells (λ said. T.heard told.old said told.new)
            (needs_session seen.acts (execute_turn x made (disk_of made name seen) result seen.acts queue))
            (After x made seen.acts self.new m) }
        ensures content { (x : Setting) (made : Creation) (name : List ℕ) (seen : Seen) (m : PoolMemory) →
            Stands x made seen.acts self.old m
            → IsNamed name self.old → IsWindow (I.content disk.old) window seen
            → I.content disk.new ≡ option_map (stored_over window
            (needs_session seen.acts
            (execute_turn x made (disk_of made name seen) result seen.acts queue)).acts) (I.content disk.old) }
        ensures more { (x : Setting) (made : Creation) (acts : List Act) (m : PoolMemory) →
            Stands x made acts self.old m
            → StandsForMore x made acts self.new m }
        ensures size { I.size disk.new ≡ I.size disk.old }
        ensures later { I.faults disk.old ≤ I.faults disk.new }
        ensures cause { result ≡ true → Rose (I.faults disk.old) (I.faults disk.new) }

        // A flush ends with status 0 only where the count of flushes rose.
        ensures flushed { (x : Setting) (made : Creation) (name : List ℕ) (seen : Seen) (m : PoolMemory) →
            Stands x made seen.acts self.old m
            → IsNamed name self.old → IsWindow (I.content disk.old) window seen
            → (holds_flush x seen.acts queue && is_fine
            (needs_session seen.acts
            (execute_turn x made (disk_of made name seen) result seen.acts queue)).answer) ≡ true
            → Rose (I.flushes disk.old) (I.flushes disk.new) }
        ensures flushes { I.flushes disk.old ≤ I.flushes disk.new }
        ensures device { self.new.device ≡ self.old.device }
        ensures named { (name : List ℕ) → IsNamed name self.old → IsNamed name self.new }
    {
        if !self.device.path.opened {
            told.refused(Errno::Badf);
            return false;
        }
        let ends = self.ends(queue);
        let known = self.served_queue(queue);
        let drive = Drive {
            window,
            offered: self.device.path.state.offered(),
        };
        match self.daemons.get_mut(queue as usize) {
            Some(kept) => {
                kept.renew(ends);
                execute(told, disk, &mut kept.daemon, &known, &drive)
            }
            // There is no such queue.
            None => {
                told.refused(Errno::Inval);
                false
            }
        }
    }
}
