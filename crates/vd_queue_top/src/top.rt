//! The whole of a run of the queue program.

ghost use Rattle.std.specs.Prelude.{◌≡◌, ◌⊎◌, ℕ, List, [], None, Some, IfOk, map, string_bytes, false, true};
ghost use Rattle.vd_io.specs.Told.{Rose};
ghost use Rattle.vd_loop.specs.Outs.{TextStops, TextWrites};
ghost use Rattle.vd_loop.specs.Statuses.{is_line_status, is_status, stop_of_status};
ghost use Rattle.vd_loop.specs.Written.{Appended};
ghost use Rattle.vd_output.specs.Out.{At_the_end, good_lines_in, stop_in};
ghost use Rattle.vr_pair.specs.QueueLines.{QueueOut, queue_replies};
ghost use Rattle.vr_pair.specs.QueueLists.{empty_lists};
ghost use Rattle.vd_queue_top.specs.Replies.{is_queue_line};
ghost use Rattle.vd_model.specs.Rings.{IsRingSize};
ghost use Rattle.vd_queue_top.specs.Runs.{IsGiven, QueueRan, asked_size};

use crate::lines::queue_lines;
use std::alloc::{AllocError, Global};
use vd_io::{Sink, Source};
use vd_loop::{Ended, Exit};
use vd_num::Lines;
use vd_options::{QueueOptions, RingKind, read_queue};
use vr_packed::PackedPair;
use vr_pair::Pair;
use vr_split_pair::SplitPair;

/// The end of a run that had no memory for its queue.
fn without_memory() -> Ended
    ensures { result ≡ record { status = 5; line = 0; lines_done = 0 } }
{
    Ended {
        status: 5,
        line: 0,
        lines_done: 0,
    }
}

/// Answers the lines on a queue, if there was memory for it.
fn lines_if_made<P: Pair + Drop, S: Source, K: Sink>(
    alloc: Global,
    made: Result<P, AllocError>,
    source: &mut S,
    sink: &mut K,
) -> Ended
    requires { IfOk made (λ pair. (size : ℕ) × P.stands pair (empty_lists size)) }
    ensures ran { (size : ℕ) → IfOk made (λ pair. P.stands pair (empty_lists size)) →
        QueueRan size result (S.left source.old) (S.left source.new) (K.held sink.old) (K.held sink.new) }
    ensures source_failed { result.status ≡ 3 → Rose (S.faults source.old) (S.faults source.new) }
    ensures sink_failed { result.status ≡ 4 → Rose (K.faults sink.old) (K.faults sink.new) }
{
    match made {
        Ok(pair) => queue_lines(alloc, pair, source, sink),
        Err(AllocError) => without_memory(),
    }
}

/// Answers the lines on a queue with such a ring.
fn lines_on<S: Source, K: Sink>(
    alloc: Global,
    asked: QueueOptions,
    source: &mut S,
    sink: &mut K,
) -> Ended
    requires { IsRingSize asked.size }
    ensures ran { QueueRan asked.size result (S.left source.old) (S.left source.new)
        (K.held sink.old) (K.held sink.new) }
    ensures source_failed { result.status ≡ 3 → Rose (S.faults source.old) (S.faults source.new) }
    ensures sink_failed { result.status ≡ 4 → Rose (K.faults sink.old) (K.faults sink.new) }
{
    let QueueOptions { kind, size } = asked;
    match kind {
        RingKind::Packed => lines_if_made(alloc, PackedPair::new(alloc, size), source, sink),
        RingKind::Split => lines_if_made(alloc, SplitPair::new(alloc, size), source, sink),
    }
}

/// Runs the queue program: its words are `queue`, the kind of a ring (`packed`, virtio 1.2, section 2.8, or `split`,
/// section 2.7), and how many descriptors that has; it answers the lines that the source gives on a queue with such a
/// ring, and writes their replies, which are the same for both kinds.
pub fn queue_top<S: Source, K: Sink>(
    alloc: Global,
    words: &Vec<String>,
    source: &mut S,
    sink: &mut K,
) -> Exit
    // Status 2: exactly where the words have another form; then source and sink are as they were.
    ensures usage { asked_size (map string_bytes words.now.items) ≡ None → (result.status ≡ 2)
        × (source.new ≡ source.old) × (sink.new ≡ sink.old) × (result.lines_done ≡ 0) }

    // Every other status, by the text and what is left of it.
    ensures stopped { (size : ℕ) (text : List ℕ) →
        IsGiven (map string_bytes words.now.items) size (S.left source.old) text →
        TextStops is_queue_line text (stop_of_status result.status) result.line result.lines_done (S.left source.new) }

    // And by what is written: the replies of the three lists, in which no ring is named.
    ensures written { (size : ℕ) (text : List ℕ) →
        IsGiven (map string_bytes words.now.items) size (S.left source.old) text →
        TextWrites (queue_replies (empty_lists size)) (good_lines_in is_queue_line text) (stop_of_status result.status)
        result.lines_done (K.held sink.old) (K.held sink.new) }

    // At status 0 these are the replies to the whole text.
    ensures whole { (size : ℕ) (text : List ℕ) →
        IsGiven (map string_bytes words.now.items) size (S.left source.old) text → result.status ≡ 0 →
        Appended (K.held sink.old) (K.held sink.new) (QueueOut size text) }

    // A fault of the outside is told only where there was one.
    ensures source_failed { result.status ≡ 3 → Rose (S.faults source.old) (S.faults source.new) }
    ensures sink_failed { result.status ≡ 4 → Rose (K.faults sink.old) (K.faults sink.new) }

    // No other status than those of the table is answered, and 2 for its words alone.
    ensures known { (size : ℕ) → asked_size (map string_bytes words.now.items) ≡ Some size →
        is_status result.status ≡ true }
    ensures no_line { is_line_status result.status ≡ false → result.line ≡ 0 }
    ensures disk_failures { result.disk_failures ≡ [] }

    // Without a fault, a text of lines of the grammar is answered whole, or memory runs out.
    ensures complete { (size : ℕ) (text : List ℕ) →
        IsGiven (map string_bytes words.now.items) size (S.left source.old) text →
        stop_in is_queue_line text ≡ At_the_end →
        (Rose (S.faults source.old) (S.faults source.new) → ⊥) → (Rose (K.faults sink.old) (K.faults sink.new) → ⊥) →
        (result.status ≡ 0) ⊎ (result.status ≡ 5) }
{
    match read_queue(words) {
        None => Exit::usage(alloc),
        Some(asked) => Exit::of_run(lines_on(alloc, asked, source, sink), Lines::new(alloc)),
    }
}
