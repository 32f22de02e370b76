//! The steps of a script, played one after another.

ghost use Rattle.std.specs.Prelude.{◌≡◌, ◌<◌, ◌≤◌, ◌^◌, ◌+◌, ℕ, [], ◌∷◌, OnErr, OnOk, IfErr, MatchResult, Some, true, false, vec_len, vec_capacity, length};
ghost use Rattle.vd_io.specs.Told.{Rose};
ghost use Rattle.vd_model.specs.Setting.{Setting};
ghost use Rattle.vd_replies.specs.Adds.{HasRoom};
ghost use Rattle.vd_device.specs.Sizes.{AreFit, IsSized};
ghost use Rattle.vd_engine.specs.Machine.{StandsFor, IsReached};
ghost use Rattle.vd_engine.specs.Frugal.{is_execution};
ghost use Rattle.vd_top.specs.Executes.{RoseBy, failed_more};
ghost use Rattle.vd_top.specs.Pictures.{shown};
ghost use Rattle.vd_loop.specs.Replies.{IsReplyAdded, Flushed};
ghost use Rattle.vd_top.specs.Played.{Answered, IsHindered, StoppedBy};

use std::alloc::{AllocError, Global};
use vd_engine::{Engine, Sizes};
use vd_io::{Image, Sink};
use vd_loop::{Progress, Stop, Waiting};
use vd_model::{QueueStep, Step};
use vd_replies::{Printed, ROOM};

/// What plays steps: the engine, room for a reply that is used again for each step, the replies that
/// wait to be written, and the numbers of the lines at which the image failed. The engine can't be
/// dropped, so `end` ends it.
pub struct Player {
    pub engine: Engine,
    pub reply: Printed,
    pub waiting: Waiting,
    pub failures: Vec<u64>,
}

/// Whether a step is an execute, which alone touches the image.
fn is_execution(step: &Step<'_>) -> bool
    ensures { result ≡ is_execution step.now }
{
    match step {
        Step::Control(_) | Step::Device { .. } => false,
        Step::Queue { step, .. } => matches!(step, QueueStep::Execute { .. }),
    }
}

/// Keeps the number of a line if the image failed at it.
fn note_failure(failures: &mut Vec<u64>, failed: bool, number: u64)
    requires { failed ≡ true → vec_len failures.old < vec_capacity failures.old }
    ensures { failures.new.items ≡ failed_more failed number failures.old.items }
{
    if failed {
        failures.push_reserved(number);
    }
}

impl Player {
    /// It plays with an engine without devices, each of which will have these sizes, for an image of so many sectors.
    pub fn new(alloc: Global, sizes: Sizes, sectors: u64) -> Player
        requires { AreFit sizes }
        ensures stands { (x : Setting) → IsSized x sizes → x.sectors ≡ sectors →
            StandsFor x [] result.engine }
        ensures sectors { result.engine.sectors ≡ sectors }
        ensures reached { IsReached result.engine }
        ensures asked { result.engine.asked ≡ 0 }
        ensures waiting { result.waiting.bytes ≡ [] }
        ensures failures { result.failures.items ≡ [] }
    {
        Player {
            engine: Engine::new(alloc, sizes, sectors),
            reply: Printed {
                bytes: Vec::new(alloc),
            },
            waiting: Waiting::new(alloc),
            failures: Vec::new(alloc),
        }
    }

    /// Ends the engine, and gives the replies that wait and the lines at which the image failed.
    pub fn end(self) -> (Waiting, Vec<u64>)
        requires { IsReached self.engine }
        ensures waiting { result.0 ≡ self.waiting }
        ensures failures { result.1.items ≡ self.failures.items }
    {
        let Player {
            engine,
            reply: _,
            waiting,
            failures,
        } = self;
        engine.end();
        (waiting, failures)
    }

    /// Empties the reply, and takes room for the next one.
    fn clear(&mut self) -> Result<(), AllocError>
        ensures engine { self.new.engine ≡ self.old.engine }
        ensures waiting { self.new.waiting ≡ self.old.waiting }
        ensures failures { self.new.failures.items ≡ self.old.failures.items }
        ensures none { OnOk result (self.new.reply.bytes.items ≡ []) }
        ensures room { OnOk result (HasRoom ROOM self.new.reply.bytes) }
    {
        self.reply.bytes.clear();
        self.reply.bytes.reserve(ROOM)
    }

    /// Before an execute the replies that wait are written, so that none waits to a line before one
    /// that the image holds; and there is room for the line's number.
    fn prepare<K: Sink>(
        &mut self,
        step: &Step<'_>,
        lines: u64,
        sink: &mut K,
    ) -> Result<(), Progress>
        ensures engine { self.new.engine ≡ self.old.engine }
        ensures reply { self.new.reply ≡ self.old.reply }
        ensures failures { self.new.failures.items ≡ self.old.failures.items }
        ensures flushed { OnOk result (Flushed self.old.waiting self.new.waiting (K.held sink.old)
            (K.held sink.new)) }
        ensures alone { OnOk result (is_execution step.now ≡ true → self.new.waiting.bytes ≡ []) }
        ensures room { OnOk result (is_execution step.now ≡ true →
            vec_len self.new.failures < vec_capacity self.new.failures) }
        ensures stopped { IfErr result
            (λ p. IsHindered p.stop p.lines lines self.old.waiting self.new.waiting
            (K.held sink.old) (K.held sink.new)) }
        ensures later { K.faults sink.old ≤ K.faults sink.new }
        ensures sink_failed { IfErr result
            (λ p. p.stop ≡ Stop.SinkFailed → Rose (K.faults sink.old) (K.faults sink.new)) }
    {
        if !is_execution(step) {
            return Ok(());
        }
        match self.waiting.write(sink) {
            Err(written) => return Err(Progress {
                stop: Stop::SinkFailed,
                lines: written,
            }),
            Ok(()) => {}
        }
        match self.failures.reserve(1) {
            Err(AllocError) => Err(Progress {
                stop: Stop::Memory,
                lines,
            }),
            Ok(()) => Ok(()),
        }
    }

    /// Keeps how the line after so many others ended, and adds its reply to those that wait.
    fn tell(&mut self, failed: bool, lines: u64) -> Result<(), Progress>
        requires few { lines < 2 ^ 62 }
        requires room { failed ≡ true → vec_len self.old.failures < vec_capacity self.old.failures }
        ensures engine { self.new.engine ≡ self.old.engine }
        ensures failures { self.new.failures.items ≡ failed_more failed (lines + 1) self.old.failures.items }
        ensures added { OnOk result (IsReplyAdded self.old.reply.bytes.items lines self.old.waiting
            self.new.waiting) }
        ensures kept { OnErr result (self.new.waiting ≡ self.old.waiting) }
        ensures memory { IfErr result (λ p. p ≡ record { stop = Stop.Memory; lines = lines }) }
    {
        note_failure(&mut self.failures, failed, lines + 1);
        match self.waiting.add(self.reply.bytes.as_slice(), lines) {
            Err(AllocError) => Err(Progress {
                stop: Stop::Memory,
                lines,
            }),
            Ok(()) => Ok(()),
        }
    }

    /// Plays the step of a line before which so many others stand. Its reply waits with the others then.
    pub fn play<K: Sink, I: Image>(
        &mut self,
        step: &Step<'_>,
        lines: u64,
        sink: &mut K,
        disk: &mut I,
    ) -> Result<(), Progress>
        requires few { lines < 2 ^ 62 }
        requires room { self.old.engine.asked < 2 ^ 40 }
        requires reached { IsReached self.old.engine }
        requires disk { I.size disk.old ≡ self.old.engine.sectors }
        ensures answered { MatchResult result
            (λ _. Answered (Some (Some step.now)) lines self.old self.new (K.held sink.old) (K.held sink.new)
            (I.size disk.old) (shown I.content I.flushes disk.old) (shown I.content I.flushes disk.new))
            (λ p. StoppedBy p.stop p.lines (Some (Some step.now)) lines self.old self.new (K.held sink.old)
            (K.held sink.new)
            (I.size disk.old) (shown I.content I.flushes disk.old) (shown I.content I.flushes disk.new)) }
        ensures reached { IsReached self.new.engine }
        ensures asked { self.new.engine.asked ≤ self.old.engine.asked + 1 }
        ensures sectors { self.new.engine.sectors ≡ self.old.engine.sectors }
        ensures only_execute { is_execution step.now ≡ false → disk.new ≡ disk.old }
        ensures size { I.size disk.new ≡ I.size disk.old }
        ensures counted { (start : ℕ) → RoseBy (length self.old.failures.items) start (I.faults disk.old) →
            RoseBy (length self.new.failures.items) start (I.faults disk.new) }
        ensures later { K.faults sink.old ≤ K.faults sink.new }
        ensures sink_failed { IfErr result
            (λ p. p.stop ≡ Stop.SinkFailed → Rose (K.faults sink.old) (K.faults sink.new)) }
    {
        match self.clear() {
            Err(AllocError) => return Err(Progress {
                stop: Stop::Memory,
                lines,
            }),
            Ok(()) => {}
        }
        match self.prepare(step, lines, sink) {
            Err(progress) => return Err(progress),
            Ok(()) => {}
        }
        match self.engine.play(disk, step, &mut self.reply) {
            Err(AllocError) => Err(Progress {
                stop: Stop::Memory,
                lines,
            }),
            Ok(failed) => self.tell(failed, lines),
        }
    }
}
