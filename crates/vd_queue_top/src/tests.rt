//! Texts on queues, what is written for each, and how its run ends.

use crate::queue_top;
use std::alloc::{AllocError, Global};
use std::test::Fail;
use vd_io::{MemSink, MemSource};
use vd_num::{Bytes, Lines};

/// The kinds of a ring: what is written doesn't name it.
const KINDS: [&str; 2] = ["packed", "split"];

/// A worked session, and the replies that are due.
const SESSION: &[u8] = b"add r:0x10:8 w:0x20:4
add w:0x30:1 w:0x40:1
add r:0x50:1
next
next
next
used 1 2
used 1 2
reclaim
add r:0x50:1
used 0 4
reclaim
reclaim
";

const REPLIES: &[u8] = b"ok 0
ok 1
err 28
ok 0 r:0x10:8 w:0x20:4
ok 1 w:0x30:1 w:0x40:1
err 11
ok
err 2
ok 1 2
ok 2
ok
ok 0 4
err 11
";

/// Chains of one part one after another.
const ROUNDS: &[u8] = b"add r:0x1:1
next
used 0 5
reclaim
add w:0x2:1
next
used 1 6
reclaim
add w:0x3:1
next
";

const ROUND_REPLIES: &[u8] = b"ok 0
ok 0 r:0x1:1
ok
ok 0 5
ok 1
ok 1 w:0x2:1
ok
ok 1 6
ok 2
ok 2 w:0x3:1
";

/// A source's text and a sink's room, and which calls of each fail.
#[derive(Clone, Copy)]
struct Outside<'a> {
    text: &'a [u8],
    pulls: &'a [u64],
    room: u64,
    pushes: &'a [u64],
}

/// An outside at which nothing fails.
fn sound(text: &[u8]) -> Outside<'_> {
    Outside {
        text,
        pulls: &[],
        room: 65536,
        pushes: &[],
    }
}

/// How a run ended: its status, the line that stopped it, how many lines are done, and what was written.
#[derive(Drop)]
struct Outcome {
    end: (u8, u64, u64),
    sink: MemSink,
}

fn run(
    alloc: Global,
    kind: &str,
    size: &str,
    outside: &Outside<'_>,
) -> Result<Outcome, AllocError> {
    let words = vec![in alloc;
        String::from_str(alloc, "queue")?,
        String::from_str(alloc, kind)?,
        String::from_str(alloc, size)?,
    ]?;
    let mut source = MemSource::new(
        Bytes::from_vec(outside.text.to_vec(alloc)?),
        Lines::from_vec(outside.pulls.to_vec(alloc)?),
    );
    let pushes = Lines::from_vec(outside.pushes.to_vec(alloc)?);
    let mut sink = MemSink::new(alloc, outside.room, pushes)?;
    let exit = queue_top(alloc, &words, &mut source, &mut sink);
    Ok(Outcome {
        end: (exit.status, exit.line, exit.lines_done),
        sink,
    })
}

/// So many copies of a piece.
fn copies(alloc: Global, piece: &[u8], count: u32) -> Result<Vec<u8>, AllocError> {
    let mut all = Vec::new(alloc);
    for _ in 0..count {
        all.extend_from_slice(piece)?;
    }
    Ok(all)
}

#[test]
fn texts_are_answered(rt: HostRuntime) -> Result<(), Fail> {
    for kind in KINDS {
        let ran = run(rt.alloc(), kind, "4", &sound(SESSION))?;
        assert_eq!(rt; ran.end, (0, 0, 13));
        assert_eq!(rt; ran.sink.as_slice(), REPLIES);

        // The only descriptor goes round, so each of its flags is seen with both wrap counters.
        let ran = run(rt.alloc(), kind, "1", &sound(ROUNDS))?;
        assert_eq!(rt; ran.end, (0, 0, 10));
        assert_eq!(rt; ran.sink.as_slice(), ROUND_REPLIES);
    }

    // Other words, and a line that isn't in the grammar.
    let ran = run(rt.alloc(), "packed", "3", &sound(SESSION))?;
    assert_eq!(rt; ran.end, (2, 0, 0));
    let ran = run(
        rt.alloc(),
        "packed",
        "1",
        &sound(b"# one\nadd w:0x1:1\nused 0\n"),
    )?;
    assert_eq!(rt; ran.end, (6, 3, 2));
    assert_eq!(rt; ran.sink.as_slice(), b"ok 0\n".as_slice());
    Ok(())
}

#[test]
fn faults_are_told(rt: HostRuntime) -> Result<(), Fail> {
    let outside = sound(SESSION);
    let fails = Outside {
        pulls: &[1],
        ..outside
    };
    let ran = run(rt.alloc(), "packed", "4", &fails)?;
    assert_eq!(rt; ran.end, (3, 0, 13));
    assert_eq!(rt; ran.sink.as_slice(), REPLIES);
    let fails = Outside {
        pushes: &[0],
        ..outside
    };
    let ran = run(rt.alloc(), "packed", "4", &fails)?;
    assert_eq!(rt; ran.end, (4, 0, 0));
    let fails = Outside { room: 8, ..outside };
    let ran = run(rt.alloc(), "packed", "4", &fails)?;
    assert_eq!(rt; ran.end, (4, 0, 1));
    assert_eq!(rt; ran.sink.as_slice(), b"ok 0\nok ".as_slice());
    Ok(())
}

/// Chains of 64 parts that fill the largest ring, and a part more.
fn full_text(alloc: Global, parts: &[u8]) -> Result<Vec<u8>, AllocError> {
    let mut line = b"add".to_vec(alloc)?;
    line.extend_from_slice(parts)?;
    line.push(b'\n')?;
    let mut text = copies(alloc, &line, 512)?;
    text.extend_from_slice(b"add r:0x1:1\nnext\n")?;
    Ok(text)
}

#[test]
fn the_largest_ring_is_filled(rt: HostRuntime) -> Result<(), Fail> {
    let parts = copies(rt.alloc(), b" r:0x1:1", 64)?;
    let text = full_text(rt.alloc(), &parts)?;
    let mut last = b"ok 511\nerr 28\nok 0".to_vec(rt.alloc())?;
    last.extend_from_slice(&parts)?;
    last.push(b'\n')?;
    for kind in KINDS {
        let ran = run(rt.alloc(), kind, "32768", &sound(&text))?;
        assert_eq!(rt; ran.end, (0, 0, 514));
        assert!(rt; ran.sink.as_slice().ends_with(&last));
    }
    Ok(())
}
