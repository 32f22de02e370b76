//! The whole of a run: its words, its lines, and the replies.

ghost use Rattle.std.specs.Prelude.{◌≡◌, ◌≤◌, ◌⊎◌, ℕ, List, [], Some, None, map, take, string_bytes, true, false};
ghost use Rattle.vd_io.specs.Told.{Rose};
ghost use Rattle.vd_output.specs.Out.{At_the_end, good_lines_in, stop_in};
ghost use Rattle.vd_loop.specs.Outs.{TextStops, TextWrites};
ghost use Rattle.vd_loop.specs.Statuses.{stop_of_status, is_status, is_line_status};
ghost use Rattle.vd_options.specs.Programs.{asked_guest};
ghost use Rattle.vd_vhost_model.specs.VhostOut.{vhost_output};
ghost use Rattle.vd_vhost_top.specs.Answered.{is_bus_line, IsGiven};
ghost use Rattle.vd_vhost_top.specs.Promise.{TablePromise};

use crate::machine::BusMachine;
use std::alloc::{AllocError, Global};
use vd_io::{Sink, Source};
use vd_loop::{Ended, Exit, run_lines};
use vd_num::Lines;
use vd_options::read_guest;

/// Answers the lines that the source gives, by a bus over a memory of so many bytes.
fn run<S: Source, K: Sink>(alloc: Global, bytes: u64, source: &mut S, sink: &mut K) -> Ended
    requires some { 1 ≤ bytes }
    requires fits { bytes ≤ 67108864 }
    ensures stopped { (text : List ℕ) → S.left source.old ≡ Some text →
        TextStops is_bus_line text (stop_of_status result.status) result.line result.lines_done (S.left source.new) }
    ensures written { (text : List ℕ) → S.left source.old ≡ Some text →
        TextWrites (vhost_output bytes []) (good_lines_in is_bus_line text) (stop_of_status result.status) result.lines_done
        (K.held sink.old) (K.held sink.new) }
    ensures source_failed { result.status ≡ 3 → Rose (S.faults source.old) (S.faults source.new) }
    ensures sink_failed { result.status ≡ 4 → Rose (K.faults sink.old) (K.faults sink.new) }
    ensures known { is_status result.status ≡ true }
    ensures no_line { is_line_status result.status ≡ false → result.line ≡ 0 }
{
    match BusMachine::new(alloc, bytes) {
        Ok(machine) => {
            let (_, ended) = run_lines(alloc, machine, &mut (), source, sink);
            ended
        }
        Err(AllocError) => Ended {
            status: 5,
            line: 0,
            lines_done: 0,
        },
    }
}

/// Runs a guest's bus on the lines that the source gives. The words are `vhost` and how many bytes the guest's
/// memory has, from 1 to 67,108,864.
pub fn vhost_top<S: Source, K: Sink>(
    alloc: Global,
    words: &Vec<String>,
    source: &mut S,
    sink: &mut K,
) -> Exit
    // Status 2: exactly where the words have another form; then source and sink are as they were.
    ensures usage { asked_guest (map string_bytes words.now.items) ≡ None → (result.status ≡ 2)
        × (source.new ≡ source.old) × (sink.new ≡ sink.old) × (result.lines_done ≡ 0) }

    // Every other status, by the text and what is left of it.
    ensures stopped { (size : ℕ) (text : List ℕ) →
        IsGiven (map string_bytes words.now.items) size (S.left source.old) text →
        TextStops is_bus_line text (stop_of_status result.status) result.line result.lines_done (S.left source.new) }

    // And by what is written: the replies of a bus over a memory of so many bytes.
    ensures written { (size : ℕ) (text : List ℕ) →
        IsGiven (map string_bytes words.now.items) size (S.left source.old) text →
        TextWrites (vhost_output size []) (good_lines_in is_bus_line text) (stop_of_status result.status) result.lines_done
        (K.held sink.old) (K.held sink.new) }

    // The table promise, after each of these lines: a load shows a byte of the guest's memory only through a region of
    // the present table that permits reading, a store changes one only through a region that permits writing, and
    // a denial names its first address and which of the two rules it breaks.
    ensures promise { (size : ℕ) (text : List ℕ) (n : ℕ) →
        IsGiven (map string_bytes words.now.items) size (S.left source.old) text →
        TablePromise size (take n (good_lines_in is_bus_line text)) }

    // A fault of the outside is told only where there was one.
    ensures source_failed { result.status ≡ 3 → Rose (S.faults source.old) (S.faults source.new) }
    ensures sink_failed { result.status ≡ 4 → Rose (K.faults sink.old) (K.faults sink.new) }

    // No other status than those of the table is answered, and 2 for its words alone.
    ensures known { (size : ℕ) → asked_guest (map string_bytes words.now.items) ≡ Some size →
        is_status result.status ≡ true }
    ensures no_line { is_line_status result.status ≡ false → result.line ≡ 0 }

    // It has no image that could fail.
    ensures no_disk { result.disk_failures ≡ [] }

    // Without a fault, a text of good lines is answered whole, or memory runs out.
    ensures complete { (size : ℕ) (text : List ℕ) →
        IsGiven (map string_bytes words.now.items) size (S.left source.old) text →
        stop_in is_bus_line text ≡ At_the_end →
        (Rose (S.faults source.old) (S.faults source.new) → ⊥) → (Rose (K.faults sink.old) (K.faults sink.new) → ⊥) →
        (result.status ≡ 0) ⊎ (result.status ≡ 5) }
{
    match read_guest(words) {
        None => Exit::usage(alloc),
        Some(bytes) => Exit::of_run(
            run(alloc, u64::from(bytes), source, sink),
            Lines::new(alloc),
        ),
    }
}
