//! The lines of a script, answered one after another.

ghost use Rattle.std.specs.Prelude.{◌≡◌, ◌<◌, ◌≤◌, ◌^◌, ◌+◌, ℕ, List, [], OnOk, IsErr, IfErr, MatchResult, Some, true, false, length};
ghost use Rattle.vd_io.specs.Told.{Rose};
ghost use Rattle.vd_model.specs.Setting.{Setting};
ghost use Rattle.vd_model.specs.Reading.{reading};
ghost use Rattle.vd_device.specs.Sizes.{AreFit, IsSized};
ghost use Rattle.vd_engine.specs.Machine.{StandsFor, IsReached};
ghost use Rattle.vd_top.specs.Executes.{RoseBy, executes, is_execute_line};
ghost use Rattle.vd_top.specs.Pictures.{shown};
ghost use Rattle.vd_loop.specs.Replies.{Cut, Flushed};
ghost use Rattle.vd_loop.specs.Statuses.{is_own};
ghost use Rattle.vd_top.specs.Played.{Answered, StoppedBy, Played};

use crate::grammar::{Line, read_line};
use crate::player::Player;
use std::alloc::{AllocError, Global};
use vd_engine::Sizes;
use vd_io::{Image, Sink, Source};
use vd_lines::{LineReader, Next, ReadFault};
use vd_loop::{Progress, Stop, Waiting};

/// How many bytes of replies wait at most before they are written.
const FLUSH: usize = 65536;

/// What answers lines: a player, and room for what a line spells, which is used again for each line.
pub struct Responder {
    pub alloc: Global,
    pub scratch: Vec<u8>,
    pub player: Player,
}

impl Responder {
    /// It answers with an engine without devices, each of which will have these sizes, for an image of so many sectors.
    pub fn new(alloc: Global, sizes: Sizes, sectors: u64) -> Responder
        requires { AreFit sizes }
        ensures stands { (x : Setting) → IsSized x sizes → x.sectors ≡ sectors →
            StandsFor x [] result.player.engine }
        ensures sectors { result.player.engine.sectors ≡ sectors }
        ensures reached { IsReached result.player.engine }
        ensures asked { result.player.engine.asked ≡ 0 }
        ensures waiting { result.player.waiting.bytes ≡ [] }
        ensures failures { result.player.failures.items ≡ [] }
    {
        Responder {
            alloc,
            scratch: Vec::new(alloc),
            player: Player::new(alloc, sizes, sectors),
        }
    }

    /// Ends the engine, and gives the replies that wait and the lines at which the image failed.
    pub fn end(self) -> (Waiting, Vec<u64>)
        requires { IsReached self.player.engine }
        ensures waiting { result.0 ≡ self.player.waiting }
        ensures failures { result.1.items ≡ self.player.failures.items }
    {
        let Responder {
            alloc: _,
            scratch: _,
            player,
        } = self;
        player.end()
    }

    /// Answers a line before which so many others stand. Its reply waits with the others then.
    fn answer<K: Sink, I: Image>(
        &mut self,
        line: &[u8],
        lines: u64,
        sink: &mut K,
        disk: &mut I,
    ) -> Result<(), Progress>
        requires few { lines < 2 ^ 62 }
        requires room { self.old.player.engine.asked < 2 ^ 40 }
        requires reached { IsReached self.old.player.engine }
        requires disk { I.size disk.old ≡ self.old.player.engine.sectors }
        ensures answered { MatchResult result
            (λ _. Answered (reading line.now) lines self.old.player self.new.player (K.held sink.old) (K.held sink.new)
            (I.size disk.old) (shown I.content I.flushes disk.old) (shown I.content I.flushes disk.new))
            (λ p. StoppedBy p.stop p.lines (reading line.now) lines self.old.player self.new.player
            (K.held sink.old) (K.held sink.new)
            (I.size disk.old) (shown I.content I.flushes disk.old) (shown I.content I.flushes disk.new)) }
        ensures reached { IsReached self.new.player.engine }
        ensures asked { self.new.player.engine.asked ≤ self.old.player.engine.asked + 1 }
        ensures sectors { self.new.player.engine.sectors ≡ self.old.player.engine.sectors }
        ensures only_execute { is_execute_line line.now ≡ false → disk.new ≡ disk.old }
        ensures size { I.size disk.new ≡ I.size disk.old }
        ensures counted { (start : ℕ) → RoseBy (length self.old.player.failures.items) start (I.faults disk.old) →
            RoseBy (length self.new.player.failures.items) start (I.faults disk.new) }
        ensures later { K.faults sink.old ≤ K.faults sink.new }
        ensures sink_failed { IfErr result
            (λ p. p.stop ≡ Stop.SinkFailed → Rose (K.faults sink.old) (K.faults sink.new)) }
    {
        let step = match read_line(self.alloc, &mut self.scratch, line) {
            Err(AllocError) => return Err(Progress {
                stop: Stop::Memory,
                lines,
            }),
            Ok(Line::Bad) => return Err(Progress {
                stop: Stop::BadLine,
                lines,
            }),
            Ok(Line::Nothing) => return Ok(()),
            Ok(Line::Asks(step)) => step,
        };
        self.player.play(&step, lines, sink, disk)
    }
}

/// Writes the replies that wait, once they are many. If the sink fails, it answers to how many
/// lines the replies were written whole.
fn flush<K: Sink>(waiting: &mut Waiting, sink: &mut K) -> Result<(), u64>
    ensures ok { OnOk result (Flushed waiting.old waiting.new (K.held sink.old) (K.held sink.new)) }
    ensures front { IfErr result (λ lines. Cut waiting.old lines (K.held sink.old) (K.held sink.new)) }
    ensures later { K.faults sink.old ≤ K.faults sink.new }
    ensures failed { IsErr result → Rose (K.faults sink.old) (K.faults sink.new) }
{
    if waiting.len() < FLUSH {
        return Ok(());
    }
    waiting.write(sink)
}

/// Answers the lines that the source gives, until there is none or one stops the run. The replies
/// are written in large pieces, and before an execute; the last of them are left to wait.
pub fn play<S: Source, K: Sink, I: Image>(
    responder: &mut Responder,
    source: &mut S,
    sink: &mut K,
    disk: &mut I,
) -> Progress
    requires asked { responder.old.player.engine.asked ≡ 0 }
    requires reached { IsReached responder.old.player.engine }
    requires waiting { responder.old.player.waiting.bytes ≡ [] }
    requires failures { responder.old.player.failures.items ≡ [] }
    requires disk { I.size disk.old ≡ responder.old.player.engine.sectors }
    ensures played { (text : List ℕ) → S.left source.old ≡ Some text →
        Played text result.stop result.lines responder.old.player.engine responder.new.player
        (S.left source.new) (K.held sink.old) (K.held sink.new)
        (I.size disk.old) (shown I.content I.flushes disk.old) (shown I.content I.flushes disk.new) }
    ensures untouched { (text : List ℕ) → S.left source.old ≡ Some text → executes text ≡ false →
        disk.new ≡ disk.old }
    ensures size { I.size disk.new ≡ I.size disk.old }
    ensures counted { RoseBy (length responder.new.player.failures.items) (I.faults disk.old)
        (I.faults disk.new) }
    ensures source_failed { result.stop ≡ Stop.SourceFailed →
        Rose (S.faults source.old) (S.faults source.new) }
    ensures sink_failed { result.stop ≡ Stop.SinkFailed → Rose (K.faults sink.old) (K.faults sink.new) }
    ensures source_later { S.faults source.old ≤ S.faults source.new }
    ensures sink_later { K.faults sink.old ≤ K.faults sink.new }
    ensures reached { IsReached responder.new.player.engine }
    ensures few { is_own result.stop ≡ true → result.lines < 2 ^ 62 }
{
    let mut reader = LineReader::new(responder.alloc);
    let mut lines = 0;
    loop {
        match reader.advance(source) {
            Ok(Next::Line) => {}
            Ok(Next::Last) => {
                return match responder.answer(reader.line(), lines, sink, disk) {
                    Err(progress) => progress,
                    Ok(()) => Progress {
                        stop: Stop::End,
                        lines: lines + 1,
                    },
                };
            }
            Ok(Next::End) => return Progress {
                stop: Stop::End,
                lines,
            },
            Err(ReadFault::Failed) => return Progress {
                stop: Stop::SourceFailed,
                lines,
            },
            Err(ReadFault::TooLong) => return Progress {
                stop: Stop::TooLong,
                lines,
            },
            Err(ReadFault::Memory) => return Progress {
                stop: Stop::Memory,
                lines,
            },
        }
        match responder.answer(reader.line(), lines, sink, disk) {
            Err(progress) => return progress,
            Ok(()) => {}
        }
        lines += 1;
        match flush(&mut responder.player.waiting, sink) {
            Err(written) => return Progress {
                stop: Stop::SinkFailed,
                lines: written,
            },
            Ok(()) => {}
        }
    }
}
