//! The whole of a run over a cache.

ghost use Rattle.std.specs.Prelude.{◌≡◌, ◌⊎◌, ◌+◌, ◌↔◌, ℕ, List, [], Some, None, IfOk, IfErr, IsSome, map, take, length, string_bytes, true, false};
ghost use Rattle.vd_io.specs.Told.{Rose};
ghost use Rattle.vd_model.specs.Setting.{Setting};
ghost use Rattle.vd_output.specs.Out.{stop_of, At_the_end, good_lines, history_after};
ghost use Rattle.vd_engine.specs.Image.{IsImage};
ghost use Rattle.vd_laws.specs.Runs.{IsAddressed, IsWhole};
ghost use Rattle.vd_options.specs.Words.{Sizes, asked_sizes};
ghost use Rattle.vd_top.specs.Asked.{HasSizes};
ghost use Rattle.vd_top.specs.Executes.{AreFailures, AreUpTo, RoseBy, executes};
ghost use Rattle.vd_top.specs.RunLaws.{RunLaws};
ghost use Rattle.vd_loop.specs.Statuses.{is_line_status};
ghost use Rattle.vd_top.specs.Written.{StopsBy, WritesBy};
ghost use Rattle.blk_disk.specs.Moments.{AreSingle, Lie};
ghost use Rattle.blk_cache.specs.Cached.{Keeps, content_of, newest_alone, now};
ghost use Rattle.vd_cached.specs.Words.{cached_sizes};
ghost use Rattle.vd_cached.specs.Ends.{IsGivenCached, IsFlushed, DiskAt, flushed_status, stop_of_cached, is_cached_status};

use crate::words::{CachedWords, read_cached_words};
use blk_cache::Cache;
use blk_disk::Disk;
use std::alloc::Global;
use vd_io::{Image, Sink, Source};
use vd_num::Lines;
use vd_options::WordsError;
use vd_top::{Exit, script_top};

/// The status where all lines were answered, and then the last flush failed.
const UNFLUSHED: u8 = 9;

/// How a script over a cache ended, and the disk, which comes back.
#[derive(Drop)]
pub struct CachedExit<D> {
    pub exit: Exit,
    pub disk: D,
}

/// A run that can't begin, and the disk.
struct Unbegun<D> {
    why: WordsError,
    disk: D,
}

/// The end of a run that read nothing.
fn unread(alloc: Global, status: u8) -> Exit
    ensures status { result.status ≡ status }
    ensures line { result.line ≡ 0 }
    ensures lines_done { result.lines_done ≡ 0 }
    ensures disk_failures { result.disk_failures ≡ [] }
{
    Exit {
        status,
        line: 0,
        lines_done: 0,
        disk_failures: Lines::new(alloc),
    }
}

/// The status after the last flush, which succeeded or not, of a run that ended with this one.
fn last_status(status: u8, flushed: bool) -> u8
    ensures { result ≡ flushed_status flushed status }
{
    if status == 0 && !flushed {
        UNFLUSHED
    } else {
        status
    }
}

/// The words of the run itself, and a cache over the disk.
fn begin<D: Disk + Drop>(
    alloc: Global,
    words: &Vec<String>,
    disk: D,
) -> Result<(Vec<String>, Cache<D>), Unbegun<D>>
    requires settled { D.tells ≡ true → AreSingle (D.present disk) (D.may_leave disk) }
    ensures sizes { IfOk result (λ made. asked_sizes (map string_bytes made.0.items)
        ≡ cached_sizes (map string_bytes words.now.items)) }
    ensures some { IfOk result (λ made. IsSome (cached_sizes (map string_bytes words.now.items))) }
    ensures disk { IfOk result (λ made. made.1.disk ≡ disk) }
    ensures content { IfOk result
        (λ made. content_of D.tells (now made.1.dirty (D.present made.1.disk)) (D.size made.1.disk)
        ≡ content_of D.tells (D.present disk) (D.size disk)) }
    ensures kept { IfOk result (λ made. D.tells ≡ true →
        Keeps (newest_alone (D.present disk)) (now made.1.dirty (D.present made.1.disk)) (D.may_leave made.1.disk)) }
    ensures usage { IfErr result
        (λ e. (e.why ≡ WordsError.Usage) ↔ (cached_sizes (map string_bytes words.now.items) ≡ None)) }
    ensures back { IfErr result (λ e. e.disk ≡ disk) }
{
    let CachedWords { lines, run } = match read_cached_words(alloc, words) {
        Err(why) => return Err(Unbegun { why, disk }),
        Ok(asked) => asked,
    };
    match Cache::new(alloc, disk, lines) {
        Err(refused) => Err(Unbegun {
            why: WordsError::Memory,
            disk: refused.disk,
        }),
        Ok(cache) => Ok((run, cache)),
    }
}

/// Runs the script that the source gives over a cache on the disk, with the words of a run over a cache: `cached`, then how
/// many sectors may stay dirty, and then the pairs of a run. The cache is flushed at the end, and the disk comes back.
pub fn cached_top<S: Source, K: Sink, D: Disk + Drop>(
    alloc: Global,
    words: &Vec<String>,
    source: &mut S,
    sink: &mut K,
    disk: D,
) -> CachedExit<D>
    // A crash leaves what the disk has at first.
    requires settled { D.tells ≡ true → AreSingle (D.present disk) (D.may_leave disk) }

    // Status 2: exactly where the words have another form; source, sink and disk are as they were.
    ensures usage { cached_sizes (map string_bytes words.now.items) ≡ None →
        (result.exit.status ≡ 2) × (source.new ≡ source.old) × (sink.new ≡ sink.old) × (result.disk ≡ disk)
        × (result.exit.lines_done ≡ 0) × (result.exit.disk_failures ≡ []) }

    // No other status than those of a run and 9 is answered, and 2 for its words alone.
    ensures known { (sizes : Sizes) → cached_sizes (map string_bytes words.now.items) ≡ Some sizes →
        is_cached_status result.exit.status ≡ true }
    ensures no_line { is_line_status result.exit.status ≡ false → result.exit.line ≡ 0 }

    // Every status but 2, by the text and what is left of it; 9 is told of a text that was answered whole.
    ensures stopped { (sizes : Sizes) (text : List ℕ) →
        IsGivenCached (map string_bytes words.now.items) sizes (S.left source.old) text →
        StopsBy text (stop_of_cached result.exit.status) result.exit.line result.exit.lines_done (S.left source.new) }

    // And by what is written: what the history machine answers, the disk having failed at these lines.
    // A script with an execute is told of a disk that tells its contents.
    ensures written { (sizes : Sizes) (x : Setting) (text : List ℕ) →
        IsGivenCached (map string_bytes words.now.items) sizes (S.left source.old) text →
        HasSizes x sizes → x.sectors ≡ D.size disk →
        (executes text ≡ true → IsImage x [] (D.size disk) (content_of D.tells (D.present disk) (D.size disk))) →
        WritesBy x text result.exit.disk_failures (stop_of_cached result.exit.status) result.exit.lines_done
        (K.held sink.old) (K.held sink.new) }

    // The laws of the run whose replies these are, and the conditions of the laws, as of every run.
    ensures laws { (sizes : Sizes) (x : Setting) (text : List ℕ) (n : ℕ) →
        IsGivenCached (map string_bytes words.now.items) sizes (S.left source.old) text → HasSizes x sizes →
        IsAddressed x × IsWhole x
        × RunLaws x (history_after result.exit.disk_failures 1 [] (take n (good_lines text))) }

    // A fault of the outside is told only where there was one; 9 only where the disk failed once more than at lines.
    ensures source_failed { result.exit.status ≡ 3 → Rose (S.faults source.old) (S.faults source.new) }
    ensures sink_failed { result.exit.status ≡ 4 → Rose (K.faults sink.old) (K.faults sink.new) }
    ensures unflushed { result.exit.status ≡ 9 →
        RoseBy (length result.exit.disk_failures + 1) (D.faults disk) (D.faults result.disk) }

    // The disk failed at executes alone, which are told in their order; its count tells as many failures.
    ensures failures { (sizes : Sizes) (text : List ℕ) →
        IsGivenCached (map string_bytes words.now.items) sizes (S.left source.old) text →
        AreFailures (good_lines text) result.exit.disk_failures
        × AreUpTo (result.exit.lines_done + 1) result.exit.disk_failures }
    ensures counted { RoseBy (length result.exit.disk_failures) (D.faults disk) (D.faults result.disk) }
    ensures size { D.size result.disk ≡ D.size disk }

    // Where the last flush succeeded a crash leaves what the disk has, and that is what the run of the lines stored
    // whose replies are written; perhaps that of one line more where the sink failed or memory was short.
    ensures flushed { D.tells ≡ true →
        IsFlushed result.exit.status result.exit.disk_failures (D.faults disk) (D.faults result.disk) →
        AreSingle (D.present result.disk) (D.may_leave result.disk) }
    ensures holds { (sizes : Sizes) (x : Setting) (text : List ℕ) →
        IsGivenCached (map string_bytes words.now.items) sizes (S.left source.old) text →
        HasSizes x sizes → IsImage x [] (D.size disk) (content_of D.tells (D.present disk) (D.size disk)) →
        IsFlushed result.exit.status result.exit.disk_failures (D.faults disk) (D.faults result.disk) →
        DiskAt x text result.exit.disk_failures (stop_of_cached result.exit.status) result.exit.lines_done
        (D.size result.disk) (content_of D.tells (D.present result.disk) (D.size result.disk)) }

    // Where there is no execute, a crash at any moment leaves what the disk had at first.
    ensures untouched { (sizes : Sizes) (text : List ℕ) →
        IsGivenCached (map string_bytes words.now.items) sizes (S.left source.old) text → executes text ≡ false →
        (result.exit.disk_failures ≡ []) × (D.tells ≡ true → D.through (newest_alone (D.present disk)) disk result.disk
        × Lie (newest_alone (D.present disk)) (D.may_leave result.disk)) }

    // Without a fault of source and sink, a script of good lines is answered whole, or memory runs out.
    ensures complete { (sizes : Sizes) (text : List ℕ) →
        IsGivenCached (map string_bytes words.now.items) sizes (S.left source.old) text → stop_of text ≡ At_the_end →
        (Rose (S.faults source.old) (S.faults source.new) → ⊥) → (Rose (K.faults sink.old) (K.faults sink.new) → ⊥) →
        (result.exit.status ≡ 0) ⊎ (result.exit.status ≡ 9) ⊎ (result.exit.status ≡ 5) }
{
    let (run, mut cache) = match begin(alloc, words, disk) {
        Err(
            Unbegun {
                why: WordsError::Usage,
                disk,
            },
        ) => {
            let exit = unread(alloc, 2);
            return CachedExit { exit, disk };
        }
        Err(
            Unbegun {
                why: WordsError::Memory,
                disk,
            },
        ) => {
            let exit = unread(alloc, 5);
            return CachedExit { exit, disk };
        }
        Ok(begun) => begun,
    };
    let exit = script_top(alloc, &run, source, sink, &mut cache);
    let flushed = cache.flush().is_ok();
    let status = last_status(exit.status, flushed);
    let disk = cache.into_disk();
    CachedExit {
        exit: Exit { status, ..exit },
        disk,
    }
}
