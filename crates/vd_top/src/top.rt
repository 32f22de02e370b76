//! The whole of a run: its words, its script, and the replies.

ghost use Rattle.std.specs.Prelude.{◌≡◌, ◌⊎◌, ◌+◌, ℕ, List, [], Some, None, map, take, length, string_bytes, true, false};
ghost use Rattle.vd_io.specs.Told.{Rose};
ghost use Rattle.vd_model.specs.Setting.{Setting};
ghost use Rattle.vd_output.specs.Out.{stop_of, At_the_end, good_lines, history_after};
ghost use Rattle.vd_engine.specs.Image.{IsImage};
ghost use Rattle.vd_laws.specs.Runs.{IsAddressed, IsWhole};
ghost use Rattle.vd_options.specs.Words.{Sizes, asked_sizes};
ghost use Rattle.vd_top.specs.Asked.{HasSizes, IsGiven};
ghost use Rattle.vd_top.specs.Executes.{AreFailures, AreUpTo, RoseBy, executes};
ghost use Rattle.vd_top.specs.Pictures.{ImageAt, shown};
ghost use Rattle.vd_top.specs.RunLaws.{RunLaws};
ghost use Rattle.vd_loop.specs.Statuses.{stop_of_status, is_status, is_line_status};
ghost use Rattle.vd_top.specs.Written.{StopsBy, WritesBy};

use crate::exit::{run, sizes_of};
use std::alloc::Global;
use vd_io::{Image, Sink, Source};
use vd_loop::Exit;
use vd_options::read_numbers;

/// Runs the script that the source gives, with the words of a run.
pub fn script_top<S: Source, K: Sink, I: Image>(
    alloc: Global,
    words: &Vec<String>,
    source: &mut S,
    sink: &mut K,
    disk: &mut I,
) -> Exit
    // Status 2: exactly where the words aren't those of a run; then source, sink and image are as they were.
    ensures usage { asked_sizes (map string_bytes words.now.items) ≡ None → (result.status ≡ 2)
        × (source.new ≡ source.old) × (sink.new ≡ sink.old) × (disk.new ≡ disk.old)
        × (result.lines_done ≡ 0) × (result.disk_failures ≡ []) }

    // Every other status, by the text and what is left of it.
    ensures stopped { (sizes : Sizes) (text : List ℕ) →
        IsGiven (map string_bytes words.now.items) sizes (S.left source.old) text →
        StopsBy text (stop_of_status result.status) result.line result.lines_done (S.left source.new) }

    // And by what is written: what the history machine answers, the image having failed at these lines.
    // A script with an execute is told of an image that tells its bytes.
    ensures written { (sizes : Sizes) (x : Setting) (text : List ℕ) →
        IsGiven (map string_bytes words.now.items) sizes (S.left source.old) text →
        HasSizes x sizes → x.sectors ≡ I.size disk.old →
        (executes text ≡ true → IsImage x [] (I.size disk.old) (I.content disk.old)) →
        WritesBy x text result.disk_failures (stop_of_status result.status) result.lines_done (K.held sink.old)
        (K.held sink.new) }

    // The laws of the run whose replies these are: what a daemon read and where it came from, what changed a
    // driver's memory, what became of each message, that no other device's steps show, what goes over a mapping
    // in one direction, where coherent regions lie, and, where nobody disturbs its rings, that requests finish in
    // their order and do what the disk does. The words' own sizes meet the laws' two conditions.
    ensures laws { (sizes : Sizes) (x : Setting) (text : List ℕ) (n : ℕ) →
        IsGiven (map string_bytes words.now.items) sizes (S.left source.old) text → HasSizes x sizes →
        IsAddressed x × IsWhole x × RunLaws x (history_after result.disk_failures 1 [] (take n (good_lines text))) }

    // A fault of the outside is told only where there was one.
    ensures source_failed { result.status ≡ 3 → Rose (S.faults source.old) (S.faults source.new) }
    ensures sink_failed { result.status ≡ 4 → Rose (K.faults sink.old) (K.faults sink.new) }

    // No other status than those of the table is answered, and 2 for its words alone.
    ensures known { (sizes : Sizes) → asked_sizes (map string_bytes words.now.items) ≡ Some sizes →
        is_status result.status ≡ true }
    ensures no_line { is_line_status result.status ≡ false → result.line ≡ 0 }

    // The image holds what the run of the lines stored whose replies are written; perhaps that of one line more
    // where the sink failed or memory was short. It was flushed as often at least as flushes succeeded in that run, as
    // far as its count can tell.
    ensures image { (sizes : Sizes) (x : Setting) (text : List ℕ) →
        IsGiven (map string_bytes words.now.items) sizes (S.left source.old) text →
        HasSizes x sizes → IsImage x [] (I.size disk.old) (I.content disk.old) →
        ImageAt x text result.disk_failures (stop_of_status result.status) result.lines_done
        (I.size disk.new) (shown I.content I.flushes disk.old) (shown I.content I.flushes disk.new) }
    ensures size { I.size disk.new ≡ I.size disk.old }

    // It failed at executes alone, which are told in their order; its count tells as many failures. Where there is
    // no execute it is as it was.
    ensures failures { (sizes : Sizes) (text : List ℕ) →
        IsGiven (map string_bytes words.now.items) sizes (S.left source.old) text →
        AreFailures (good_lines text) result.disk_failures × AreUpTo (result.lines_done + 1) result.disk_failures }
    ensures counted { RoseBy (length result.disk_failures) (I.faults disk.old) (I.faults disk.new) }
    ensures untouched { (sizes : Sizes) (text : List ℕ) →
        IsGiven (map string_bytes words.now.items) sizes (S.left source.old) text → executes text ≡ false →
        (disk.new ≡ disk.old) × (result.disk_failures ≡ []) }

    // Without a fault, a script of good lines is answered whole, or memory runs out.
    ensures complete { (sizes : Sizes) (text : List ℕ) →
        IsGiven (map string_bytes words.now.items) sizes (S.left source.old) text → stop_of text ≡ At_the_end →
        (Rose (S.faults source.old) (S.faults source.new) → ⊥) → (Rose (K.faults sink.old) (K.faults sink.new) → ⊥) →
        (result.status ≡ 0) ⊎ (result.status ≡ 5) }
{
    match read_numbers(words) {
        Err(_) => Exit::usage(alloc),
        Ok(options) => run(alloc, sizes_of(&options), source, sink, disk),
    }
}
