//! The lines of a text, answered on a queue.

ghost use Rattle.std.specs.Prelude.{◌≡◌, ℕ};
ghost use Rattle.vd_io.specs.Told.{Rose};
ghost use Rattle.vr_pair.specs.QueueLists.{empty_lists};
ghost use Rattle.vd_queue_top.specs.Runs.{QueueRan};

use crate::machine::QueueMachine;
use std::alloc::Global;
use vd_io::{Sink, Source};
use vd_loop::{Ended, run_lines};
use vr_pair::Pair;

/// Answers the lines that the source gives on a queue to which nothing was added, and writes their replies.
pub fn queue_lines<P: Pair + Drop, S: Source, K: Sink>(
    alloc: Global,
    pair: P,
    source: &mut S,
    sink: &mut K,
) -> Ended
    requires unused { (size : ℕ) × P.stands pair (empty_lists size) }

    // Where it stopped in the text that the source tells, and what was written, whatever ring the queue has.
    ensures ran { (size : ℕ) → P.stands pair (empty_lists size) →
        QueueRan size result (S.left source.old) (S.left source.new) (K.held sink.old) (K.held sink.new) }

    // A fault of the outside is told only where there was one.
    ensures source_failed { result.status ≡ 3 → Rose (S.faults source.old) (S.faults source.new) }
    ensures sink_failed { result.status ≡ 4 → Rose (K.faults sink.old) (K.faults sink.new) }
{
    let machine = QueueMachine::new(alloc, pair);
    let (_, ended) = run_lines(alloc, machine, &mut (), source, sink);
    ended
}
