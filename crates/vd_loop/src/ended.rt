//! How a run of lines ended.

ghost use Rattle.std.specs.Prelude.{◌≡◌, ◌≢◌, ◌<◌, ◌≤◌, ◌^◌, ℕ, [], true, false};
ghost use Rattle.vd_io.specs.Told.{Rose};
ghost use Rattle.vd_loop.specs.Runs.{Finished, Ran};
ghost use Rattle.vd_loop.specs.Statuses.{is_own, status_of, line_of, stop_of_status, is_status, is_line_status};

use crate::machine::Machine;
use crate::progress::{Progress, Stop};
use crate::session::{Session, play};
use crate::waiting::Waiting;
use std::alloc::Global;
use vd_io::{Sink, Source};

/// How a run of lines ended: its status, the line at which it stopped if a line stopped it, and how
/// many lines' replies were written whole. Status 0: all lines were answered. 3: the source failed.
/// 4: the sink failed. 5: want of memory. 6: the line is not in the grammar. 7: the line or the text
/// is too long.
#[derive(Clone, Copy, Debug, PartialEq, Eq)]
pub struct Ended {
    pub status: u8,
    pub line: u64,
    pub lines_done: u64,
}

/// The end of a run that stopped so.
fn end_of(progress: Progress) -> Ended
    requires { is_own progress.stop ≡ true → progress.lines < 2 ^ 62 }
    ensures stop { stop_of_status result.status ≡ progress.stop }
    ensures status { result.status ≡ status_of progress.stop }
    ensures line { result.line ≡ line_of progress.stop progress.lines }
    ensures no_line { is_line_status result.status ≡ false → result.line ≡ 0 }
    ensures lines_done { result.lines_done ≡ progress.lines }
{
    let lines_done = progress.lines;
    let (status, line) = match progress.stop {
        Stop::End => (0, 0),
        Stop::SourceFailed => (3, 0),
        Stop::SinkFailed => (4, 0),
        Stop::Memory => (5, 0),
        Stop::BadLine => (6, lines_done + 1),
        Stop::TooLong => (7, lines_done + 1),
    };
    Ended {
        status,
        line,
        lines_done,
    }
}

/// Writes the last replies that wait, unless the sink has failed before.
fn finish<K: Sink>(progress: Progress, mut waiting: Waiting, sink: &mut K) -> Progress
    requires few { is_own progress.stop ≡ true → progress.lines < 2 ^ 62 }
    ensures finished { Finished progress result waiting (K.held sink.old) (K.held sink.new) }
    ensures failed { result.stop ≡ Stop.SinkFailed → progress.stop ≢ Stop.SinkFailed →
        Rose (K.faults sink.old) (K.faults sink.new) }
    ensures later { K.faults sink.old ≤ K.faults sink.new }
    ensures source { result.stop ≡ Stop.SourceFailed → progress.stop ≡ Stop.SourceFailed }
    ensures few { is_own result.stop ≡ true → result.lines < 2 ^ 62 }
{
    match progress.stop {
        Stop::SinkFailed => progress,
        _ => match waiting.write(sink) {
            Ok(()) => progress,
            Err(written) => Progress {
                stop: Stop::SinkFailed,
                lines: written,
            },
        },
    }
}

/// Answers the lines that the source gives, writes their replies, and says how that ended.
pub fn run_lines<M: Machine<O>, O, S: Source, K: Sink>(
    alloc: Global,
    machine: M,
    outside: &mut O,
    source: &mut S,
    sink: &mut K,
) -> (M, Ended)
    requires fits { M.fits 0 machine outside.old }
    requires begins { M.answered machine outside.old [] [] machine outside.old }

    // Which lines were answered and by which replies, where the run stopped in the text that the source tells and what
    // is left of it, and that these replies were written: all, or a front that ends within the reply to a line.
    ensures ran { Ran M.reads M.alone (λ d r. M.answered machine outside.old d r result.0 outside.new)
        (λ d r l. M.short machine outside.old d r l result.0 outside.new) (S.left source.old)
        (stop_of_status result.1.status) result.1.line result.1.lines_done (S.left source.new)
        (K.held sink.old) (K.held sink.new) }
    ensures fits { (n : ℕ) × M.fits n result.0 outside.new }

    // A fault of the outside is told only where there was one.
    ensures source_failed { result.1.status ≡ 3 → Rose (S.faults source.old) (S.faults source.new) }
    ensures sink_failed { result.1.status ≡ 4 → Rose (K.faults sink.old) (K.faults sink.new) }

    // No other status is answered, and a line only where one stopped the run.
    ensures known { is_status result.1.status ≡ true }
    ensures no_line { is_line_status result.1.status ≡ false → result.1.line ≡ 0 }
{
    let mut session = Session {
        machine,
        waiting: Waiting::new(alloc),
        lines: 0,
    };
    let progress = play(alloc, &mut session, outside, source, sink);
    let Session {
        machine,
        waiting,
        lines: _,
    } = session;
    let last = finish(progress, waiting, sink);
    (machine, end_of(last))
}
