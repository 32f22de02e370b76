//! How a run ends: its words, faults of the outside, and a reply that is written in part.

use super::{Case, Outside, Row, SOUND, check, check_row};
use std::test::Fail;

#[test]
fn words_are_refused(rt: HostRuntime) -> Result<(), Fail> {
    let refused: [&[&str]; 9] = [
        &[],
        &["run", "x"],
        &["run", "--page", "8192"],
        &["run", "--page", "65536", "--bounce-pages", "24"],
        &["run", "--page", "65536", "--bounce-pages", "16"],
        &["run", "--bounce-pages", "1"],
        &["run", "--iova-pages", "65537"],
        &["run", "--page", "4096", "--page", "4096"],
        &["run", "--sectors", "131073"],
    ];
    for words in refused {
        let case = Case {
            words,
            script: "dev v\n",
            replies: "",
            status: 2,
            line: 0,
            lines_done: 0,
        };
        check(&rt, rt.alloc(), &case, SOUND, "words")?;
    }
    Ok(())
}

#[test]
fn lines_stop_a_run(rt: HostRuntime) -> Result<(), Fail> {
    let run = ["run"];
    let cases = [
        // the last line lacks its line feed
        Case {
            words: &run,
            script: "dev v\nbuf v 61\nmap v 0 0 1 to\nmap v 0 0 1 to",
            replies: "ok session 0\nok 0\nok 0 iova 0x3fff000\nok 1 iova 0x3ffe000\n",
            status: 0,
            line: 0,
            lines_done: 4,
        },
        // a line that isn't in the grammar
        Case {
            words: &run,
            script: "version\n# nothing\n\nmapp\nversion\n",
            replies: "ok 0\n",
            status: 6,
            line: 4,
            lines_done: 3,
        },
        // a direction that no mapping has
        Case {
            words: &run,
            script: "version\nmap v 0 0 1 by\n",
            replies: "ok 0\n",
            status: 6,
            line: 2,
            lines_done: 1,
        },
    ];
    for case in &cases {
        check(&rt, rt.alloc(), case, SOUND, "lines")?;
    }
    Ok(())
}

#[test]
fn faults_of_the_outside(rt: HostRuntime) -> Result<(), Fail> {
    let source = Case {
        words: &["run", "--bounce-pages", "2"],
        script: "dev v\n",
        replies: "",
        status: 3,
        line: 0,
        lines_done: 0,
    };
    let first_pull = Outside {
        pulls: &[0],
        ..SOUND
    };
    check(&rt, rt.alloc(), &source, first_pull, "first pull")?;
    let taken = Case {
        replies: "ok session 0\n",
        lines_done: 1,
        ..source
    };
    let second_pull = Outside {
        pulls: &[1],
        ..SOUND
    };
    check(&rt, rt.alloc(), &taken, second_pull, "second pull")?;
    let sink = Case {
        status: 4,
        ..source
    };
    let first_push = Outside {
        pushes: &[0],
        ..SOUND
    };
    check(&rt, rt.alloc(), &sink, first_push, "first push")?;
    Ok(())
}

/// The sink fails within the reply to line 4. Line 3, a comment, is done then.
#[test]
fn part_of_a_reply(rt: HostRuntime) -> Result<(), Fail> {
    let case = Case {
        words: &["run", "--bounce-pages", "2"],
        script: "dev v\nbuf v 61\n# one more\nbuf v 62\npeek v 0 0 1\n",
        replies: "ok session 0\nok 0\nok",
        status: 4,
        line: 0,
        lines_done: 3,
    };
    let small = Outside { room: 20, ..SOUND };
    check(&rt, rt.alloc(), &case, small, "part")?;
    Ok(())
}

/// A request that writes a sector.
const WRITE: Row = Row {
    name: "write",
    words: &["run"],
    lines: &[
        ("dev v", "ok session 0"),
        ("image v 2 4", "ok"),
        (
            "ring v 0 4",
            "ok 0 desc 0x7fff000 driver 0x7fff040 device 0x7fff050",
        ),
        ("vqnum v 0 4", "ok"),
        ("vqaddr v 0 0x7fff000 0x7fff040 0x7fff050", "ok"),
        ("vqready v 0 1", "ok"),
        ("buf v 01000000000000000100000000000000", "ok 0"),
        ("zeros v 512", "ok 1"),
        ("zeros v 1", "ok 2"),
        ("map v 0 0 16 to", "ok 0 iova 0x3fff000"),
        ("map v 1 0 512 to", "ok 1 iova 0x3ffe000"),
        ("map v 2 0 1 from", "ok 2 iova 0x3ffd000"),
        (
            "add v 0 r:0x3fff000:16 r:0x3ffe000:512 w:0x3ffd000:1",
            "ok head 0",
        ),
        ("publish v 0", "ok idx 1 kick 1"),
        ("fetch v 0", "ok head 0 type 1 sector 1"),
        ("execute v 0", "ok status 1"),
        ("finish v 0", "ok len 1 irq 1"),
    ],
};

/// The image fails at its first call: the request ends with an I/O error, and the execute's line is told.
#[test]
fn the_image_fails(rt: HostRuntime) -> Result<(), Fail> {
    let failing = Outside {
        image: &[0],
        ..SOUND
    };
    let failures = check_row(&rt, rt.alloc(), &WRITE, failing)?;
    assert_eq!(rt; failures.as_slice(), [16].as_slice(), "the execute's line");
    Ok(())
}
