//! How a script ended.

ghost use Rattle.std.specs.Prelude.{◌≡◌, ◌<◌, ◌/◌, ◌^◌, ◌+◌, ℕ, List, [], Some, true, false, length};
ghost use Rattle.vd_io.specs.Told.{Rose};
ghost use Rattle.vd_model.specs.Setting.{Setting};
ghost use Rattle.vd_output.specs.Out.{good_lines};
ghost use Rattle.vd_device.specs.Sizes.{AreFit, IsSized};
ghost use Rattle.vd_engine.specs.Image.{IsImage};
ghost use Rattle.vd_top.specs.Executes.{AreFailures, AreUpTo, RoseBy, executes};
ghost use Rattle.vd_top.specs.Pictures.{ImageAt, shown};
ghost use Rattle.vd_loop.specs.Statuses.{stop_of_status, is_status, is_line_status};
ghost use Rattle.vd_top.specs.Written.{StopsBy, WritesBy};
ghost use Rattle.vd_loop.specs.Statuses.{status_of, line_of, is_own};

use crate::script::{Responder, play};
use std::alloc::Global;
use vd_engine::Sizes;
use vd_io::{Image, Sink, Source};
use vd_loop::{Exit, Progress, Stop};
use vd_model::Lines;
use vd_options::Options;

/// The end of a script that stopped so, where the image failed at these lines.
fn ended(progress: Progress, disk_failures: Lines) -> Exit
    requires { is_own progress.stop ≡ true → progress.lines < 2 ^ 62 }
    ensures stop { stop_of_status result.status ≡ progress.stop }
    ensures status { result.status ≡ status_of progress.stop }
    ensures line { result.line ≡ line_of progress.stop progress.lines }
    ensures no_line { is_line_status result.status ≡ false → result.line ≡ 0 }
    ensures lines_done { result.lines_done ≡ progress.lines }
    ensures disk_failures { result.disk_failures ≡ disk_failures }
{
    let lines_done = progress.lines;
    let (status, line) = match progress.stop {
        Stop::End => (0, 0),
        Stop::SourceFailed => (3, 0),
        Stop::SinkFailed => (4, 0),
        Stop::Memory => (5, 0),
        Stop::BadLine => (6, lines_done + 1),
        Stop::TooLong => (7, lines_done + 1),
    };
    Exit {
        status,
        line,
        lines_done,
        disk_failures,
    }
}

/// The sizes that options ask for.
pub fn sizes_of(options: &Options) -> Sizes
    ensures bounce { result.bounce ≡ options.now.bounce_pages }
    ensures iova { result.iova ≡ options.now.iova_pages }
    ensures per_page { result.per_page ≡ options.now.page / 4096 }
{
    Sizes {
        bounce: options.bounce_pages,
        iova: options.iova_pages,
        per_page: options.page / 4096,
    }
}

/// Runs the script that the source gives, over devices of these sizes.
pub fn run<S: Source, K: Sink, I: Image>(
    alloc: Global,
    sizes: Sizes,
    source: &mut S,
    sink: &mut K,
    disk: &mut I,
) -> Exit
    requires { AreFit sizes }
    ensures stopped { (text : List ℕ) → S.left source.old ≡ Some text →
        StopsBy text (stop_of_status result.status) result.line result.lines_done (S.left source.new) }
    ensures written { (x : Setting) (text : List ℕ) → IsSized x sizes → x.sectors ≡ I.size disk.old →
        S.left source.old ≡ Some text →
        (executes text ≡ true → IsImage x [] (I.size disk.old) (I.content disk.old)) →
        WritesBy x text result.disk_failures (stop_of_status result.status) result.lines_done (K.held sink.old)
        (K.held sink.new) }
    ensures image { (x : Setting) (text : List ℕ) → IsSized x sizes → S.left source.old ≡ Some text →
        IsImage x [] (I.size disk.old) (I.content disk.old) →
        ImageAt x text result.disk_failures (stop_of_status result.status) result.lines_done
        (I.size disk.new) (shown I.content I.flushes disk.old) (shown I.content I.flushes disk.new) }
    ensures failures { (text : List ℕ) → S.left source.old ≡ Some text →
        AreFailures (good_lines text) result.disk_failures × AreUpTo (result.lines_done + 1) result.disk_failures }
    ensures untouched { (text : List ℕ) → S.left source.old ≡ Some text → executes text ≡ false →
        (disk.new ≡ disk.old) × (result.disk_failures ≡ []) }
    ensures size { I.size disk.new ≡ I.size disk.old }
    ensures counted { RoseBy (length result.disk_failures) (I.faults disk.old) (I.faults disk.new) }
    ensures source_failed { result.status ≡ 3 → Rose (S.faults source.old) (S.faults source.new) }
    ensures sink_failed { result.status ≡ 4 → Rose (K.faults sink.old) (K.faults sink.new) }
    ensures known { is_status result.status ≡ true }
    ensures no_line { is_line_status result.status ≡ false → result.line ≡ 0 }
{
    let mut responder = Responder::new(alloc, sizes, disk.sectors());
    let progress = play(&mut responder, source, sink, disk);
    let (mut waiting, failures) = responder.end();
    let disk_failures = Lines::from_vec(failures);
    match progress.stop {
        Stop::SinkFailed => ended(progress, disk_failures),
        _ => match waiting.write(sink) {
            Ok(()) => ended(progress, disk_failures),
            Err(written) => ended(
                Progress {
                    stop: Stop::SinkFailed,
                    lines: written,
                },
                disk_failures,
            ),
        },
    }
}
