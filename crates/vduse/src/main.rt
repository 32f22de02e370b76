//! `vduse`: reads lines on standard input, and writes the reply to each on standard output; `run` and `cached` read a
//! script, `queue` the lines of one virtqueue, `vhost` those of a guest's memory.
//!
//! It passes its words, standard input and output, and an image or a disk to `script_top`, `cached_top`, `queue_top` or
//! `vhost_top`, whose contracts say what is written, and ends with the status that it answers: 0 where every line was answered, 2 for
//! other words, 3 and 4 where input or output failed, 5 without memory, 6 at a line that is not in
//! the grammar, 7 past a limit. The image is in memory or in a file, as the words say; where that
//! file can't be opened, the status is 8, and nothing is read. Another status than 0 is explained by
//! one line on standard error. Words that ask for help are answered on standard output.
#![tactic(auto)]

mod cached;
mod fault;
mod grammar;
mod help;
mod quote;

use fault::{Fault, told};
use grammar::Grammar;
use quote::Quoting;
use std::fs::{File, OpenOptions};
use std::io::ErrorKind;
use std::process::ExitCode;
use std::rt::Env;
use std::{env, io, str};
use vd_io::{FileImage, Image, MemImage, StdSink, StdSource};
use vd_num::Lines;
use vd_queue_top::queue_top;
use vd_top::{WordsError, read_words, script_top};
use vd_vhost_top::vhost_top;

/// The words after the program's name.
fn words<R: Env + AllocGlobal>(rt: &R) -> io::Result<Vec<String>> {
    let mut words = Vec::new(rt.alloc());
    for word in env::args(rt)?.skip(1) {
        words.push(word)?;
    }
    Ok(words)
}

/// The file of this path, open for reading and writing.
fn open_file(rt: &HostRuntime, path: &[u8]) -> Result<File, Fault> {
    let Ok(path) = str::from_utf8(path) else {
        return Err(Fault::Path);
    };
    OpenOptions::new()
        .read(true)
        .write(true)
        .open(rt, path)
        .map_err(Fault::Image)
}

/// The image in the file of this path.
fn open_image(rt: &HostRuntime, path: &[u8]) -> Result<FileImage<File>, Fault> {
    FileImage::new(open_file(rt, path)?).map_err(|_| Fault::Size)
}

/// Runs the script of standard input over this image.
fn run<I: Image + Drop>(rt: &HostRuntime, words: &Vec<String>, mut disk: I) -> Option<Fault> {
    let mut source = Quoting::new(rt.alloc(), StdSource::new(rt.stdin()));
    let mut sink = StdSink::new(rt.stdout());
    let exit = script_top(rt.alloc(), words, &mut source, &mut sink, &mut disk);
    let quote = source.quote_at(rt.alloc(), exit.status, Grammar::Script);
    Fault::of_exit(&exit, quote)
}

/// Answers the lines of standard input on a queue.
fn run_queue(rt: &HostRuntime, words: &Vec<String>) -> Option<Fault> {
    let mut source = Quoting::new(rt.alloc(), StdSource::new(rt.stdin()));
    let mut sink = StdSink::new(rt.stdout());
    let exit = queue_top(rt.alloc(), words, &mut source, &mut sink);
    let quote = source.quote_at(rt.alloc(), exit.status, Grammar::Queue);
    Fault::of_exit(&exit, quote)
}

/// Answers those on a guest's memory behind a table of regions.
fn run_guest(rt: &HostRuntime, words: &Vec<String>) -> Option<Fault> {
    let mut source = Quoting::new(rt.alloc(), StdSource::new(rt.stdin()));
    let mut sink = StdSink::new(rt.stdout());
    let exit = vhost_top(rt.alloc(), words, &mut source, &mut sink);
    let quote = source.quote_at(rt.alloc(), exit.status, Grammar::Guest);
    Fault::of_exit(&exit, quote)
}

/// Runs it over an image in memory, of zeros.
fn run_in_memory(rt: &HostRuntime, words: &Vec<String>, sectors: u64) -> Option<Fault> {
    match MemImage::new(rt.alloc(), sectors, Lines::new(rt.alloc())) {
        Ok(disk) => run(rt, words, disk),
        Err(_) => Some(Fault::Memory(0)),
    }
}

/// Runs it over the image in the file of this path.
fn run_in_file(rt: &HostRuntime, words: &Vec<String>, path: &[u8]) -> Option<Fault> {
    match open_image(rt, path) {
        Ok(disk) => run(rt, words, disk),
        Err(fault) => Some(fault),
    }
}

/// Runs a script over the image itself, as the words ask for; none where it was answered whole.
fn run_script(rt: &HostRuntime, words: &Vec<String>) -> Option<Fault> {
    match read_words(rt.alloc(), words) {
        Err(WordsError::Usage) => run_in_memory(rt, words, 0),
        Err(WordsError::Memory) => Some(Fault::Memory(0)),
        Ok(options) => match &options.image {
            None => run_in_memory(rt, words, options.sectors),
            Some(path) => run_in_file(rt, words, path.as_slice()),
        },
    }
}

/// Runs what the words ask for.
fn run_words(rt: &HostRuntime, words: &Vec<String>) -> Option<Fault> {
    match words.first().map(String::as_str) {
        Some("cached") => cached::run(rt, words),
        Some("queue") => run_queue(rt, words),
        Some("vhost") => run_guest(rt, words),
        _ => run_script(rt, words),
    }
}

fn main(rt: HostRuntime) -> ExitCode {
    let words = match words(&rt) {
        Ok(words) => words,
        Err(error) if error.kind() == ErrorKind::InvalidData => {
            return told(&rt, Some(&Fault::Usage));
        }
        Err(_) => return told(&rt, Some(&Fault::Memory(0))),
    };
    match help::asked(&words) {
        Some(help) => help::print(&rt, help),
        None => told(&rt, run_words(&rt, &words).as_ref()),
    }
}
