//! `vduse cached`: a script over a write-back cache between the block daemon and the disk.

ghost use Rattle.std.specs.Prelude.{◌≡◌, true};
ghost use Rattle.blk_disk.specs.Moments.{AreSingle};

use crate::fault::Fault;
use crate::grammar::Grammar;
use crate::open_file;
use crate::quote::Quoting;
use blk_disk::Disk;
use blk_disks::FileDisk;
use blk_memory_disk::MemDisk;
use vd_cached::{CachedWords, cached_top, read_cached_words};
use vd_io::{StdSink, StdSource};
use vd_num::Lines;
use vd_top::{WordsError, read_words};

/// Runs the script of standard input over a cache on this disk.
fn run_over<D: Disk + Drop>(rt: &HostRuntime, words: &Vec<String>, disk: D) -> Option<Fault>
    requires { D.tells ≡ true → AreSingle (D.present disk) (D.may_leave disk) }
{
    let mut source = Quoting::new(rt.alloc(), StdSource::new(rt.stdin()));
    let mut sink = StdSink::new(rt.stdout());
    let exit = cached_top(rt.alloc(), words, &mut source, &mut sink, disk).exit;
    let quote = source.quote_at(rt.alloc(), exit.status, Grammar::Script);
    Fault::of_exit(&exit, quote)
}

/// Runs it over a cache on a disk in memory, of zeros.
fn run_in_memory(rt: &HostRuntime, words: &Vec<String>, sectors: u64) -> Option<Fault> {
    match MemDisk::new(rt.alloc(), sectors, 0, Lines::new(rt.alloc())) {
        Ok(disk) => run_over(rt, words, disk),
        Err(_) => Some(Fault::Memory(0)),
    }
}

/// Runs it over a cache on the disk in the file of this path.
fn run_in_file(rt: &HostRuntime, words: &Vec<String>, path: &[u8]) -> Option<Fault> {
    let file = match open_file(rt, path) {
        Ok(file) => file,
        Err(fault) => return Some(fault),
    };
    match FileDisk::new(file) {
        Ok(disk) => run_over(rt, words, disk),
        Err(_) => Some(Fault::Size),
    }
}

/// Why the words of a run over a cache aren't read.
fn unread(why: WordsError) -> Fault {
    match why {
        WordsError::Usage => Fault::Usage,
        WordsError::Memory => Fault::Memory(0),
    }
}

/// Runs a script over a cache, as the words ask for; none where it was answered whole.
pub fn run(rt: &HostRuntime, words: &Vec<String>) -> Option<Fault> {
    let run = match read_cached_words(rt.alloc(), words) {
        Ok(CachedWords { run, .. }) => run,
        Err(why) => return Some(unread(why)),
    };
    match read_words(rt.alloc(), &run) {
        Err(why) => Some(unread(why)),
        Ok(options) => match &options.image {
            None => run_in_memory(rt, words, options.sectors),
            Some(path) => run_in_file(rt, words, path.as_slice()),
        },
    }
}
