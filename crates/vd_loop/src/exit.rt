//! How a program ended.

ghost use Rattle.std.specs.Prelude.{◌≡◌, []};

use crate::ended::Ended;
use std::alloc::Global;
use vd_num::Lines;

/// How a program ended: its status, the line at which it stopped if a line stopped it, how many
/// lines' replies were written whole, and the lines at which its image failed. Status 0: all lines
/// were answered. 2: its words have another form. 3: the source failed. 4: the sink failed. 5: want
/// of memory. 6: the line is not in the grammar. 7: the line or the text is too long.
#[derive(Drop)]
pub struct Exit {
    pub status: u8,
    pub line: u64,
    pub lines_done: u64,
    pub disk_failures: Lines,
}

impl Exit {
    /// The end of a program whose words have another form.
    pub fn usage(alloc: Global) -> Exit
        ensures status { result.status ≡ 2 }
        ensures line { result.line ≡ 0 }
        ensures lines_done { result.lines_done ≡ 0 }
        ensures disk_failures { result.disk_failures ≡ [] }
    {
        Exit {
            status: 2,
            line: 0,
            lines_done: 0,
            disk_failures: Lines::new(alloc),
        }
    }

    /// The end of a run of lines, at some of which the image failed.
    pub fn of_run(ended: Ended, disk_failures: Lines) -> Exit
        ensures { result ≡ record {
          status = ended.status;
          line = ended.line;
          lines_done = ended.lines_done;
          disk_failures = disk_failures;
        } }
    {
        let Ended {
            status,
            line,
            lines_done,
        } = ended;
        Exit {
            status,
            line,
            lines_done,
            disk_failures,
        }
    }
}
