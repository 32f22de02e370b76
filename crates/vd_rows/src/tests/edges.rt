//! Limits, each at its edge.

use super::{Case, SOUND, check};
use std::test::Fail;

#[test]
fn long_lines(rt: HostRuntime) -> Result<(), Fail> {
    let longest = "#".repeat(rt.alloc(), 65536)?;
    let script = format!(in rt.alloc(); "version\n{longest}\nversion\n")?;
    let whole = Case {
        words: &["run"],
        script: &script,
        replies: "ok 0\nok 0\n",
        status: 0,
        line: 0,
        lines_done: 3,
    };
    check(&rt, rt.alloc(), &whole, SOUND, "the longest line")?;
    let longer = format!(in rt.alloc(); "version\n{longest}#\nversion\n")?;
    let stopped = Case {
        script: &longer,
        replies: "ok 0\n",
        status: 7,
        line: 2,
        lines_done: 1,
        ..whole
    };
    check(&rt, rt.alloc(), &stopped, SOUND, "a longer line")?;
    Ok(())
}

#[test]
fn long_names(rt: HostRuntime) -> Result<(), Fail> {
    let name = "a".repeat(rt.alloc(), 255)?;
    let script = format!(in rt.alloc(); "dev {name}\nbuf {name} 61\npeek {name} 0 0 1\n")?;
    let whole = Case {
        words: &["run"],
        script: &script,
        replies: "ok session 0\nok 0\nok 61\n",
        status: 0,
        line: 0,
        lines_done: 3,
    };
    check(&rt, rt.alloc(), &whole, SOUND, "the longest name")?;
    let longer = format!(in rt.alloc(); "version\ndev {name}a\n")?;
    let stopped = Case {
        script: &longer,
        replies: "ok 0\n",
        status: 6,
        line: 2,
        lines_done: 1,
        ..whole
    };
    check(&rt, rt.alloc(), &stopped, SOUND, "a longer name")?;
    Ok(())
}

/// A reply is as long as it can be, and nothing is in the line that asks for one byte more.
#[test]
fn long_replies(rt: HostRuntime) -> Result<(), Fail> {
    let zeros = "00".repeat(rt.alloc(), 32768)?;
    let replies = format!(in rt.alloc(); "ok session 0\nok 0\nok {zeros}\n")?;
    let case = Case {
        words: &["run"],
        script: "dev v\nzeros v 32769\npeek v 0 1 32768\npeek v 0 0 32769\n",
        replies: &replies,
        status: 6,
        line: 4,
        lines_done: 3,
    };
    check(&rt, rt.alloc(), &case, SOUND, "the longest reply")?;
    Ok(())
}

#[test]
fn numbers_at_their_edges(rt: HostRuntime) -> Result<(), Fail> {
    let run = ["run"];
    let cases = [
        // eight devices, and none more before one of them goes
        Case {
            words: &run,
            script: "dev a\ndev b\ndev c\ndev d\ndev e\ndev f\ndev g\ndev h\ndev i\ndev a\ndetach a\nclose a\ndestroy a\ndev i\n",
            replies: "ok session 0\nok session 0\nok session 0\nok session 0\nok session 0\nok session 0\nok session 0\nok session 0\nerr 28\nerr 17\nok\nok\nok\nok session 0\n",
            status: 0,
            line: 0,
            lines_done: 14,
        },
        // the clock stops at 2^40 seconds
        Case {
            words: &run,
            script: "tick 1099511627776\ntick 1\ntick 0\n",
            replies: "ok 1099511627776\nerr 22\nok 1099511627776\n",
            status: 0,
            line: 0,
            lines_done: 3,
        },
        Case {
            words: &run,
            script: "tick 1099511627777\ntick 0xffffffffffffffff\ntick 0\n",
            replies: "err 22\nerr 22\nok 0\n",
            status: 0,
            line: 0,
            lines_done: 3,
        },
        // a number of 64 bits, and one past it
        Case {
            words: &run,
            script: "setversion 18446744073709551615\nsetversion 18446744073709551616\n",
            replies: "err 22\n",
            status: 6,
            line: 2,
            lines_done: 1,
        },
        // a load up to the last slot of bounce memory, and past it
        Case {
            words: &["run", "--bounce-pages", "2"],
            script: "dev v\nzeros v 4096\nmap v 0 0 4096 to\nload v 0x1fff 1\nload v 0x1fff 2\n",
            replies: "ok session 0\nok 0\nok 0 iova 0x1000\nok 00\nbus 0x2000\n",
            status: 0,
            line: 0,
            lines_done: 5,
        },
        // the words at their edges
        Case {
            words: &[
                "run",
                "--iova-pages",
                "65536",
                "--bounce-pages",
                "16384",
                "--page",
                "65536",
            ],
            script: "dev v\ncoherent v 1\n",
            replies: "ok session 0\nok 0 iova 0xffff000\n",
            status: 0,
            line: 0,
            lines_done: 2,
        },
    ];
    for case in &cases {
        check(&rt, rt.alloc(), case, SOUND, "edges")?;
    }
    Ok(())
}
