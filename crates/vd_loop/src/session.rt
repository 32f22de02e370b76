//! The lines that a source gives, answered one after another.

ghost use Rattle.std.specs.Prelude.{◌≡◌, ◌<◌, ◌≤◌, ◌^◌, ◌+◌, ◌++◌, ◌∷◌, ℕ, List, [], Ok, OnOk, IsErr, IfOk, IfErr, MatchResult, true, length};
ghost use Rattle.vd_io.specs.Told.{Rose};
ghost use Rattle.vd_loop.specs.Replies.{Cut, Flushed};
ghost use Rattle.vd_loop.specs.Runs.{IsOf, AnsweredBy, Waited, StoppedBy, AskedTo, LeftAt, Played};
ghost use Rattle.vd_loop.specs.Statuses.{is_own, stop_of_fault};

use crate::machine::{Answer, Machine};
use crate::progress::{Progress, Stop};
use crate::waiting::Waiting;
use std::alloc::{AllocError, Global};
use vd_io::{Sink, Source};
use vd_lines::{LineReader, Next, ReadFault};

/// How many bytes of replies wait at most before they are written.
const FLUSH: usize = 65536;

/// A machine, the replies that wait, and how many lines were answered.
pub struct Session<M> {
    pub machine: M,
    pub waiting: Waiting,
    pub lines: u64,
}

/// Asks the machine a line. Where the line is to be answered alone, the replies that wait are
/// written before.
fn ask<M: Machine<O>, O, K: Sink>(
    session: &mut Session<M>,
    outside: &mut O,
    line: &[u8],
    sink: &mut K,
) -> Result<Answer, Progress>
    requires few { session.old.lines < 2 ^ 32 }
    requires fits { M.fits session.old.lines session.old.machine outside.old }
    ensures lines { session.new.lines ≡ session.old.lines }
    ensures fits { M.fits (session.old.lines + 1) session.new.machine outside.new }
    ensures read { IfOk result (IsOf (M.reads line.now) (M.alone line.now) true) }
    ensures none { result ≡ Ok Answer.Told → M.alone line.now ≡ true → session.new.waiting.bytes ≡ [] }
    ensures flushed { OnOk result
        (Flushed session.old.waiting session.new.waiting (K.held sink.old) (K.held sink.new)) }
    ensures stopped { IfErr result
        (λ p. StoppedBy p.stop p.lines true session.old.lines session.old.waiting session.new.waiting
        (K.held sink.old) (K.held sink.new)) }
    ensures run { (first : M) (beside : O) (done replies : List (List ℕ)) → session.old.lines ≡ length done →
        M.answered first beside done replies session.old.machine outside.old → MatchResult result
        (AnsweredBy line.now (M.told session.new.machine) done replies
        (λ d r. M.answered first beside d r session.new.machine outside.new))
        (λ p. AskedTo p.stop (M.answered first beside done replies session.new.machine outside.new)
        (M.short first beside done replies line.now session.new.machine outside.new)) }
    ensures later { K.faults sink.old ≤ K.faults sink.new }
    ensures sink_failed { IfErr result (λ p. p.stop ≡ Stop.SinkFailed → Rose (K.faults sink.old) (K.faults sink.new)) }
{
    let lines = session.lines;
    let empty = session.waiting.is_empty();
    match session.machine.answer(outside, line, lines, empty) {
        Err(AllocError) => return Err(Progress {
            stop: Stop::Memory,
            lines,
        }),
        Ok(Answer::Told) => return Ok(Answer::Told),
        Ok(Answer::Bad) => return Ok(Answer::Bad),
        Ok(Answer::Later) => {}
    }
    match session.waiting.write(sink) {
        Err(written) => return Err(Progress {
            stop: Stop::SinkFailed,
            lines: written,
        }),
        Ok(()) => {}
    }
    match session.machine.answer(outside, line, lines, true) {
        Err(AllocError) => Err(Progress {
            stop: Stop::Memory,
            lines,
        }),
        Ok(answer) => Ok(answer),
    }
}

/// Answers a line. Its reply waits with the others then.
fn answer<M: Machine<O>, O, K: Sink>(
    session: &mut Session<M>,
    outside: &mut O,
    line: &[u8],
    sink: &mut K,
) -> Result<(), Progress>
    requires few { session.old.lines < 2 ^ 32 }
    requires fits { M.fits session.old.lines session.old.machine outside.old }
    ensures lines { OnOk result (session.new.lines ≡ session.old.lines + 1) }
    ensures fits { M.fits (session.old.lines + 1) session.new.machine outside.new }
    ensures read { OnOk result (M.reads line.now ≡ true) }
    ensures waits { OnOk result (Waited (M.alone line.now) (M.told session.new.machine) session.old.lines
        session.old.waiting session.new.waiting (K.held sink.old) (K.held sink.new)) }
    ensures stopped { IfErr result (λ p. StoppedBy p.stop p.lines (M.reads line.now) session.old.lines
        session.old.waiting session.new.waiting (K.held sink.old) (K.held sink.new)) }
    ensures run { (first : M) (beside : O) (done replies : List (List ℕ)) → session.old.lines ≡ length done →
        M.answered first beside done replies session.old.machine outside.old → MatchResult result
        (λ _. M.answered first beside (done ++ line.now ∷ [])
        (replies ++ M.told session.new.machine ∷ []) session.new.machine outside.new)
        (λ p. LeftAt p.stop (M.answered first beside done replies session.new.machine outside.new)
        (M.short first beside done replies line.now session.new.machine outside.new)
        ((M.reads line.now ≡ true) × (M.alone line.now ≡ true → session.new.waiting.bytes ≡ [])
        × M.answered first beside
        (done ++ line.now ∷ []) (replies ++ M.told session.new.machine ∷ []) session.new.machine outside.new)) }
    ensures later { K.faults sink.old ≤ K.faults sink.new }
    ensures sink_failed { IfErr result (λ p. p.stop ≡ Stop.SinkFailed → Rose (K.faults sink.old) (K.faults sink.new)) }
{
    let lines = session.lines;
    match ask(session, outside, line, sink) {
        Err(progress) => return Err(progress),
        Ok(Answer::Later) => unreachable!(),
        Ok(Answer::Bad) => return Err(Progress {
            stop: Stop::BadLine,
            lines,
        }),
        Ok(Answer::Told) => {}
    }
    match session.waiting.add(session.machine.reply(), lines) {
        Err(AllocError) => Err(Progress {
            stop: Stop::Memory,
            lines,
        }),
        Ok(()) => {
            session.lines = lines + 1;
            Ok(())
        }
    }
}

/// Writes the replies that wait, once they are many. If the sink fails, it answers to how many
/// lines the replies were written whole.
fn flush<K: Sink>(waiting: &mut Waiting, sink: &mut K) -> Result<(), u64>
    ensures ok { OnOk result (Flushed waiting.old waiting.new (K.held sink.old) (K.held sink.new)) }
    ensures front { IfErr result (λ lines. Cut waiting.old lines (K.held sink.old) (K.held sink.new)) }
    ensures later { K.faults sink.old ≤ K.faults sink.new }
    ensures failed { IsErr result → Rose (K.faults sink.old) (K.faults sink.new) }
{
    if waiting.len() < FLUSH {
        return Ok(());
    }
    waiting.write(sink)
}

/// Why no line is read.
fn read_stop(fault: ReadFault) -> Stop
    ensures { result ≡ stop_of_fault fault }
{
    match fault {
        ReadFault::Failed => Stop::SourceFailed,
        ReadFault::TooLong => Stop::TooLong,
        ReadFault::Memory => Stop::Memory,
    }
}

/// Answers the lines that the source gives, until there is none or one stops the run. The replies
/// are written in large pieces, and before a line that is answered alone; the last of them are left
/// to wait.
pub fn play<M: Machine<O>, O, S: Source, K: Sink>(
    alloc: Global,
    session: &mut Session<M>,
    outside: &mut O,
    source: &mut S,
    sink: &mut K,
) -> Progress
    requires lines { session.old.lines ≡ 0 }
    requires waiting { session.old.waiting.bytes ≡ [] }
    requires fits { M.fits 0 session.old.machine outside.old }
    requires begins { M.answered session.old.machine outside.old [] [] session.old.machine outside.old }
    ensures played { Played M.reads M.alone
        (λ d r. M.answered session.old.machine outside.old d r session.new.machine outside.new)
        (λ d r l. M.short session.old.machine outside.old d r l session.new.machine outside.new)
        (S.left source.old) result.stop session.new.waiting result.lines (S.left source.new) (K.held sink.old)
        (K.held sink.new) }
    ensures fits { (n : ℕ) × M.fits n session.new.machine outside.new }
    ensures source_failed { result.stop ≡ Stop.SourceFailed → Rose (S.faults source.old) (S.faults source.new) }
    ensures sink_failed { result.stop ≡ Stop.SinkFailed → Rose (K.faults sink.old) (K.faults sink.new) }
    ensures sink_later { K.faults sink.old ≤ K.faults sink.new }
    ensures few { is_own result.stop ≡ true → result.lines < 2 ^ 62 }
{
    let mut reader = LineReader::new(alloc);
    loop {
        match reader.advance(source) {
            Ok(Next::Line) => {}
            Ok(Next::Last) => {
                return match answer(session, outside, reader.line(), sink) {
                    Err(progress) => progress,
                    Ok(()) => Progress {
                        stop: Stop::End,
                        lines: session.lines,
                    },
                };
            }
            Ok(Next::End) => return Progress {
                stop: Stop::End,
                lines: session.lines,
            },
            Err(fault) => return Progress {
                stop: read_stop(fault),
                lines: session.lines,
            },
        }
        match answer(session, outside, reader.line(), sink) {
            Err(progress) => return progress,
            Ok(()) => {}
        }
        match flush(&mut session.waiting, sink) {
            Err(written) => return Progress {
                stop: Stop::SinkFailed,
                lines: written,
            },
            Ok(()) => {}
        }
    }
}
