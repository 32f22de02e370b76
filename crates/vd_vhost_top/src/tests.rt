//! Runs of lines, in memory.

use crate::vhost_top;
use std::alloc::{AllocError, Global};
use std::process::Abort;
use std::str;
use std::test::Fail;
use vd_io::{MemSink, MemSource};
use vd_num::{Bytes, Lines};

/// Words, a text, and what is due: the replies, the status, and the line that stopped the run.
#[derive(Clone, Copy)]
struct Case<'a> {
    words: &'a [&'a str],
    text: &'a str,
    replies: &'a str,
    status: u8,
    line: u64,
}

const PERMISSIONS: [(&str, &str); 12] = [
    ("poke 0 000102030405060708090a0b0c0d0e0f", "ok"),
    ("setmap 0x1000:0x1003:4:1 0x1004:0x1007:8:2", "ok id 0"),
    ("recv", "ok id 0 iotlb 0x0 0xffffffffffffffff"),
    ("load 0x1000 4", "ok 04050607"),
    ("load 0x1002 4", "perm 0x1004"),
    ("store 0x1004 aabb", "ok"),
    ("store 0x1003 aa", "perm 0x1003"),
    ("load 0x2000 1", "bus 0x2000"),
    ("peek 8 2", "ok aabb"),
    ("answer 0 1", "ok"),
    ("take 0", "failed reply 1"),
    ("load 0x1000 1", "bus 0x1000"),
];

const TABLES: [(&str, &str); 6] = [
    ("setmap 0:9:0:3 9:12:0:3", "err 22"),
    ("setmap 0:16:0:3", "err 22"),
    ("setmap 0:15:0:3", "ok id 0"),
    ("tick 30", "ok 30"),
    ("take 0", "failed timeout 30 30"),
    ("setmap", "err 5"),
];

/// Each refusal; a region that ends at the last address, and an access that goes on at address 0; and a failed
/// take of an older id, which changes no table.
const REFUSALS: [(&str, &str); 40] = [
    ("poke 15 aabb", "err 22"),
    ("peek 16 1", "err 22"),
    ("peek 18446744073709551615 2", "err 22"),
    ("setmap 0:0:0:0", "err 22"),
    ("setmap 0:0:0:4", "err 22"),
    ("setmap 0:0:0:256", "err 22"),
    ("setmap 1:0:0:1", "err 22"),
    ("setmap 0:0:16:1", "err 22"),
    ("setmap 0:0:18446744073709551615:1", "err 22"),
    ("setmap 4:7:0:1 0:4:8:1", "err 22"),
    ("lookup 0 1", "err 22"),
    ("lookup 1 0", "err 22"),
    ("recv", "err 11"),
    ("answer 0 0", "err 2"),
    ("take 0", "err 2"),
    ("tick 1099511627777", "err 22"),
    (
        "setmap 0xfffffffffffffffe:0xffffffffffffffff:0:3 0:3:4:1",
        "ok id 0",
    ),
    ("poke 0 0102030405060708", "ok"),
    ("load 0xfffffffffffffffe 6", "ok 010205060708"),
    ("load 0xfffffffffffffffe 7", "bus 0x4"),
    ("store 0xfffffffffffffffe 090a0b", "perm 0x0"),
    ("store 0xfffffffffffffffe 090a", "ok"),
    ("peek 0 4", "ok 090a0304"),
    (
        "lookup 3 0xffffffffffffffff",
        "ok offset 0x4 start 0x0 last 0x3 perm 1",
    ),
    ("lookup 4 0xfffffffffffffffd", "err 22"),
    ("setmap 8:9:8:2", "ok id 1"),
    ("load 8 1", "perm 0x8"),
    ("recv", "ok id 0 iotlb 0x0 0xffffffffffffffff"),
    ("lost", "ok"),
    ("answer 0 7", "err 2"),
    ("recv", "ok id 0 iotlb 0x0 0xffffffffffffffff"),
    ("take 0", "pending"),
    ("answer 0 7", "ok"),
    ("take 0", "failed reply 7"),
    ("store 8 0c", "ok"),
    ("recv", "ok id 1 iotlb 0x0 0xffffffffffffffff"),
    ("answer 1 0", "ok"),
    ("take 1", "ok"),
    ("store 9 0d", "ok"),
    ("peek 8 2", "ok 0c0d"),
];

/// The last bytes of the largest memory.
const LARGEST: [(&str, &str); 3] = [
    ("peek 67108863 1", "ok 00"),
    ("peek 67108863 2", "err 22"),
    ("setmap 0:67108863:0:3", "ok id 0"),
];

/// Runs a case; the first call of the source or the sink fails where it is told to.
fn check(
    rt: &impl Abort,
    alloc: Global,
    case: &Case<'_>,
    pulls: &[u64],
    pushes: &[u64],
) -> Result<(), AllocError> {
    let mut words = Vec::new(alloc);
    for word in case.words {
        words.push(String::from_str(alloc, word)?)?;
    }
    let text = Bytes::from_vec(case.text.as_bytes().to_vec(alloc)?);
    let mut source = MemSource::new(text, Lines::from_vec(pulls.to_vec(alloc)?));
    let mut sink = MemSink::new(alloc, 4096, Lines::from_vec(pushes.to_vec(alloc)?))?;
    let exit = vhost_top(alloc, &words, &mut source, &mut sink);
    let written = str::from_utf8(sink.as_slice()).unwrap_or("no text");
    assert_eq!(rt; written, case.replies);
    assert_eq!(rt; (exit.status, exit.line), (case.status, case.line));
    Ok(())
}

/// Runs lines that are all answered.
fn check_rows(
    rt: &impl Abort,
    alloc: Global,
    words: &[&str],
    rows: &[(&str, &str)],
) -> Result<(), AllocError> {
    let mut text = String::new(alloc);
    let mut replies = String::new(alloc);
    for (line, reply) in rows {
        text.push_str(line)?;
        text.push('\n')?;
        replies.push_str(reply)?;
        replies.push('\n')?;
    }
    let case = Case {
        words,
        text: text.as_str(),
        replies: replies.as_str(),
        status: 0,
        line: 0,
    };
    check(rt, alloc, &case, &[], &[])
}

/// 64 regions of one byte each that touch: the bytes of the memory the other way round.
fn long_table(alloc: Global) -> Result<String, AllocError> {
    let mut line = String::from_str(alloc, "setmap")?;
    for at in 0..64u64 {
        let region = format!(in alloc; " {at}:{at}:{}:3", 63 - at)?;
        line.push_str(&region)?;
    }
    Ok(line)
}

#[test]
fn rows_are_answered(rt: HostRuntime) -> Result<(), Fail> {
    check_rows(&rt, rt.alloc(), &["vhost", "16"], &PERMISSIONS)?;
    check_rows(&rt, rt.alloc(), &["vhost", "16"], &TABLES)?;
    check_rows(&rt, rt.alloc(), &["vhost", "16"], &REFUSALS)?;
    check_rows(&rt, rt.alloc(), &["vhost", "67108864"], &LARGEST)?;
    Ok(())
}

#[test]
fn one_access_crosses_64_regions(rt: HostRuntime) -> Result<(), Fail> {
    let table = long_table(rt.alloc())?;
    let text = format!(in rt.alloc();
        "poke 0 0102\npoke 62 0304\n{table}\nload 0 64\nload 0 65\n{table} 64:64:0:3\n"
    )?;
    let zeros = "00".repeat(rt.alloc(), 60)?;
    let replies = format!(in rt.alloc(); "ok\nok\nok id 0\nok 0403{zeros}0201\nbus 0x40\n")?;
    // A table of one region more isn't in the grammar.
    let case = Case {
        words: &["vhost", "64"],
        text: text.as_str(),
        replies: replies.as_str(),
        status: 6,
        line: 6,
    };
    check(&rt, rt.alloc(), &case, &[], &[])?;
    Ok(())
}

#[test]
fn runs_end_so(rt: HostRuntime) -> Result<(), Fail> {
    let sound = Case {
        words: &["vhost", "1"],
        text: "# a comment\n\nlost",
        replies: "ok\n",
        status: 0,
        line: 0,
    };
    check(&rt, rt.alloc(), &sound, &[], &[])?;
    let failed = Case {
        replies: "",
        status: 3,
        ..sound
    };
    check(&rt, rt.alloc(), &failed, &[0], &[])?;
    check(
        &rt,
        rt.alloc(),
        &Case {
            status: 4,
            ..failed
        },
        &[],
        &[0],
    )?;
    for words in [
        ["vhost", "0"].as_slice(),
        &["vhost", "67108865"],
        &["vhost", "01"],
        &["vhost"],
        &["run", "1"],
    ] {
        let other = Case {
            words,
            status: 2,
            ..failed
        };
        check(&rt, rt.alloc(), &other, &[], &[])?;
    }
    Ok(())
}
