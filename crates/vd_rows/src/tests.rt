//! Worked rows and the ends of a run, in memory.

mod areas;
mod cached;
mod control;
mod edges;
mod ends;
mod faults;
mod memory;
mod messages;
mod requests;
mod rings;

use std::alloc::{AllocError, Global};
use std::process::Abort;
use std::str;
use std::test::Fail;
use vd_io::{MemImage, MemSink, MemSource};
use vd_num::{Bytes, Lines};
use vd_top::script_top;

/// A worked row: the words of a run, and the lines of its script, each with the reply that is due.
#[derive(Clone, Copy)]
pub struct Row {
    pub name: &'static str,
    pub words: &'static [&'static str],
    pub lines: &'static [(&'static str, &'static str)],
}

/// A script of some words: what it is given, what it writes, and how it ends.
#[derive(Clone, Copy)]
pub struct Case<'a> {
    pub words: &'a [&'a str],
    pub script: &'a str,
    pub replies: &'a str,
    pub status: u8,
    pub line: u64,
    pub lines_done: u64,
}

/// The outside of a run: how many sectors its image has, and what fails of it: the calls of each of the numbers, and each that
/// finds no room left.
#[derive(Clone, Copy)]
pub struct Outside<'a> {
    pub sectors: u64,
    pub pulls: &'a [u64],
    pub pushes: &'a [u64],
    pub image: &'a [u64],
    pub room: u64,
}

/// An outside at which nothing fails.
pub const SOUND: Outside<'static> = Outside {
    sectors: 8,
    pulls: &[],
    pushes: &[],
    image: &[],
    room: 262144,
};

/// The words of a run.
pub fn words_of(alloc: Global, words: &[&str]) -> Result<Vec<String>, AllocError> {
    let mut all = Vec::new(alloc);
    for word in words {
        all.push(String::from_str(alloc, word)?)?;
    }
    Ok(all)
}

/// Runs a script, and gives the lines at which the image failed, and the image.
pub fn check_image(
    rt: &impl Abort,
    alloc: Global,
    case: &Case<'_>,
    outside: Outside<'_>,
    name: &str,
) -> Result<(Lines, MemImage), AllocError> {
    let words = words_of(alloc, case.words)?;
    let text = Bytes::from_vec(case.script.as_bytes().to_vec(alloc)?);
    let mut source = MemSource::new(text, Lines::from_vec(outside.pulls.to_vec(alloc)?));
    let pushes = Lines::from_vec(outside.pushes.to_vec(alloc)?);
    let mut sink = MemSink::new(alloc, outside.room, pushes)?;
    let mut disk = MemImage::new(
        alloc,
        outside.sectors,
        Lines::from_vec(outside.image.to_vec(alloc)?),
    )?;
    let exit = script_top(alloc, &words, &mut source, &mut sink, &mut disk);
    let written = str::from_utf8(sink.as_slice()).unwrap_or("no text");
    let is_due = written == case.replies;
    assert!(rt; is_due, "replies of {name}:\n{written}");
    assert_eq!(rt; exit.status, case.status, "status of {name}");
    assert_eq!(rt; exit.line, case.line, "line of {name}");
    assert_eq!(rt; exit.lines_done, case.lines_done, "lines done of {name}");
    Ok((exit.disk_failures, disk))
}

/// Runs a script, and gives the lines at which the image failed.
pub fn check(
    rt: &impl Abort,
    alloc: Global,
    case: &Case<'_>,
    outside: Outside<'_>,
    name: &str,
) -> Result<Lines, AllocError> {
    let (failures, _image) = check_image(rt, alloc, case, outside, name)?;
    Ok(failures)
}

/// The script of some lines, and the replies that are due.
pub fn text_of(alloc: Global, lines: &[(&str, &str)]) -> Result<(String, String), AllocError> {
    let mut script = String::new(alloc);
    let mut replies = String::new(alloc);
    for (line, reply) in lines {
        script.push_str(line)?;
        script.push('\n')?;
        replies.push_str(reply)?;
        replies.push('\n')?;
    }
    Ok((script, replies))
}

/// Runs a row to its end, and gives the lines at which the image failed.
pub fn check_row(
    rt: &impl Abort,
    alloc: Global,
    row: &Row,
    outside: Outside<'_>,
) -> Result<Lines, AllocError> {
    let (script, replies) = text_of(alloc, row.lines)?;
    let case = Case {
        words: row.words,
        script: script.as_str(),
        replies: replies.as_str(),
        status: 0,
        line: 0,
        lines_done: row.lines.len() as u64,
    };
    check(rt, alloc, &case, outside, row.name)
}

/// Runs rows on an image of so many sectors.
fn check_rows(
    rt: &impl Abort,
    alloc: Global,
    rows: &[Row],
    sectors: u64,
) -> Result<(), AllocError> {
    let outside = Outside { sectors, ..SOUND };
    for row in rows {
        check_row(rt, alloc, row, outside)?;
    }
    Ok(())
}

#[test]
fn worked_rows(rt: HostRuntime) -> Result<(), Fail> {
    check_rows(&rt, rt.alloc(), &memory::rows(), 8)?;
    check_rows(&rt, rt.alloc(), &areas::rows(), 8)?;
    check_rows(&rt, rt.alloc(), &control::rows(), 8)?;
    check_rows(&rt, rt.alloc(), &messages::rows(), 8)?;
    check_rows(&rt, rt.alloc(), &rings::rows(), 8)?;
    check_rows(&rt, rt.alloc(), &requests::rows(), 64)?;
    check_rows(&rt, rt.alloc(), &[requests::LARGEST], 2048)?;
    check_rows(&rt, rt.alloc(), &[requests::LONGEST], 32768)?;
    Ok(())
}
