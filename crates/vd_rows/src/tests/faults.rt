//! Each call of the source, of the sink and of the image fails in turn, over a whole session.

use super::{Case, Outside, SOUND, check_image, requests, text_of};
use std::alloc::{AllocError, Global};
use std::process::Abort;
use std::test::Fail;

/// How a session ends of which one call failed: its status, how many lines' replies are written, and whether the first
/// request was stored in the image.
#[derive(Clone, Copy)]
struct End {
    status: u8,
    answered: usize,
    stored: bool,
}

/// What the image's sector 8 begins with.
fn first_byte(stored: bool) -> u8 {
    if stored { b'a' } else { 0 }
}

/// Runs the session on an outside at which a call of the source or of the sink fails.
fn ends_so(
    rt: &impl Abort,
    alloc: Global,
    outside: Outside<'_>,
    end: End,
) -> Result<(), AllocError> {
    let lines = requests::rows()[0].lines;
    let (script, _) = text_of(alloc, lines)?;
    let (_, replies) = text_of(alloc, lines.get(..end.answered).unwrap_or(&[]))?;
    let case = Case {
        words: &["run", "--sectors", "64"],
        script: script.as_str(),
        replies: replies.as_str(),
        status: end.status,
        line: 0,
        lines_done: end.answered as u64,
    };
    let (failures, image) = check_image(rt, alloc, &case, outside, "a call that fails")?;
    assert!(rt; failures.as_slice().is_empty(), "the image didn't fail");
    let first = image.as_slice().get(8 * 512).copied();
    assert_eq!(rt; first, Some(first_byte(end.stored)), "sector 8");
    Ok(())
}

/// The first pull takes the whole text, the second one finds its end.
#[test]
fn each_pull_fails(rt: HostRuntime) -> Result<(), Fail> {
    let ends = [(3, 0, false), (3, 64, true), (0, 64, true)];
    for (call, (status, answered, stored)) in (0..).zip(ends) {
        let outside = Outside {
            sectors: 64,
            pulls: &[call],
            ..SOUND
        };
        let end = End {
            status,
            answered,
            stored,
        };
        ends_so(&rt, rt.alloc(), outside, end)?;
    }
    Ok(())
}

/// What waits is pushed before each of the five executes, which stand at these lines, and at the end.
#[test]
fn each_push_fails(rt: HostRuntime) -> Result<(), Fail> {
    let ends = [
        (4, 0, false),
        (4, 34, true),
        (4, 43, true),
        (4, 49, true),
        (4, 55, true),
        (4, 61, true),
        (0, 64, true),
    ];
    for (call, (status, answered, stored)) in (0..).zip(ends) {
        let outside = Outside {
            sectors: 64,
            pushes: &[call],
            ..SOUND
        };
        let end = End {
            status,
            answered,
            stored,
        };
        ends_so(&rt, rt.alloc(), outside, end)?;
    }
    Ok(())
}

/// A line of a session, and the reply that it has where a call of the image failed.
type Changed = (usize, &'static str);

/// Runs the session with the image's call of this number failing, and gives the line at which it failed.
fn fails_at(
    rt: &impl Abort,
    alloc: Global,
    call: u64,
    changed: &[Changed],
    stored: bool,
) -> Result<Option<u64>, AllocError> {
    let mut lines = requests::rows()[0].lines.to_vec(alloc)?;
    for (at, reply) in changed {
        if let Some(line) = lines.get_mut(*at) {
            line.1 = *reply;
        }
    }
    let (script, replies) = text_of(alloc, lines.as_slice())?;
    let case = Case {
        words: &["run", "--sectors", "64"],
        script: script.as_str(),
        replies: replies.as_str(),
        status: 0,
        line: 0,
        lines_done: 64,
    };
    let outside = Outside {
        sectors: 64,
        image: &[call],
        ..SOUND
    };
    let (failures, image) = check_image(rt, alloc, &case, outside, "an image that fails")?;
    let first = image.as_slice().get(8 * 512).copied();
    assert_eq!(rt; first, Some(first_byte(stored)), "sector 8");
    Ok(failures.as_slice().first().copied())
}

/// The image is called three times: to write, to read and to flush. A fourth call would fail nowhere.
#[test]
fn each_call_of_the_image_fails(rt: HostRuntime) -> Result<(), Fail> {
    let alloc = rt.alloc();
    let write: [Changed; 3] = [
        (34, "ok status 1"),
        (38, "ok head 0 len 1 status 1"),
        (46, "ok 000000"),
    ];
    let read: [Changed; 3] = [
        (43, "ok status 1"),
        (45, "ok head 0 len 4097 status 1"),
        (46, "ok 000000"),
    ];
    let flush: [Changed; 2] = [(49, "ok status 1"), (51, "ok head 0 len 1 status 1")];
    assert_eq!(rt;
        fails_at(&rt, alloc, 0, &write, false)?,
        Some(35),
        "a write"
    );
    assert_eq!(rt; fails_at(&rt, alloc, 1, &read, true)?, Some(44), "a read");
    assert_eq!(rt; fails_at(&rt, alloc, 2, &flush, true)?, Some(50), "a flush");
    assert_eq!(rt; fails_at(&rt, alloc, 3, &[], true)?, None, "none");
    Ok(())
}
