//! Rows on control messages and their time.

use super::Row;

/// The rows.
pub fn rows() -> [Row; 5] {
    [
        Row {
            name: "held-by-session",
            words: &["run"],
            lines: &[
                ("dev v", "ok session 0"),
                ("setstatus v 1", "ok id 0"),
                ("recv v", "ok id 0 status 1"),
                ("close v", "ok"),
                ("open v", "ok session 1"),
                ("answer v 0 0 0", "err 2"),
                ("recv v", "ok id 0 status 1"),
                ("answer v 0 0 0", "ok"),
                ("take v 0", "ok"),
                ("getstatus v", "ok 1"),
                ("take v 0", "err 2"),
            ],
        },
        Row {
            name: "requeue",
            words: &["run"],
            lines: &[
                ("dev v", "ok session 0"),
                ("setstatus v 1", "ok id 0"),
                ("setstatus v 1", "ok id 1"),
                ("setstatus v 1", "ok id 2"),
                ("recv v", "ok id 0 status 1"),
                ("recv v", "ok id 1 status 1"),
                ("close v", "ok"),
                ("open v", "ok session 1"),
                ("recv v", "ok id 0 status 1"),
                ("recv v", "ok id 1 status 1"),
                ("recv v", "ok id 2 status 1"),
                ("recv v", "err 11"),
                ("answer v 0 1 0", "ok"),
                ("answer v 0 0 0", "err 2"),
                ("take v 0", "failed reply 1"),
                ("getstatus v", "ok 0"),
            ],
        },
        Row {
            name: "raw-messages",
            words: &["run"],
            lines: &[
                ("dev v", "ok session 0"),
                ("setstatus v 1", "ok id 0"),
                ("read v 151", "err 22"),
                (
                    "read v 152",
                    "ok 0100000000000000000000000000000000000000000000000100000000000000000000000000000000000000000000000000000000000000000000000000000000000000000000000000000000000000000000000000000000000000000000000000000000000000000000000000000000000000000000000000000000000000000000000000000000000000000000000000000000000000",
                ),
                (
                    "write v 0000000000000000000000000000000000000000000000000000000000000000000000000000000000000000000000000000000000000000000000000000000000000000000000000000000000000000000000000000000000000000000000000000000000000000000000000000000000000000000000000000000000000000000000000000000000000000000000000000000000000000",
                    "ok 152",
                ),
                ("take v 0", "ok"),
                (
                    "write v 00000000000000000000000000000000000000000000000000000000000000000000000000000000000000000000000000000000000000000000000000000000000000000000000000000000000000000000000000000000000000000000000000000000000000000000000000000000000000000000000000000000000000000000000000000000000000000000000000000000000000",
                    "err 22",
                ),
            ],
        },
        Row {
            name: "timeout",
            words: &["run"],
            lines: &[
                ("dev v", "ok session 0"),
                ("setstatus v 1", "ok id 0"),
                ("setstatus v 3", "ok id 1"),
                ("tick 29", "ok 29"),
                ("take v 0", "pending"),
                ("tick 1", "ok 30"),
                ("take v 0", "failed timeout 30 30"),
                ("take v 1", "failed timeout 30 30"),
                ("setstatus v 7", "err 5"),
                ("recv v", "err 11"),
            ],
        },
        Row {
            name: "timeout-none",
            words: &["run"],
            lines: &[
                ("dev v", "ok session 0"),
                ("timeout v 0", "ok"),
                ("setstatus v 1", "ok id 0"),
                ("setstatus v 3", "ok id 1"),
                ("tick 29", "ok 29"),
                ("tick 1", "ok 30"),
                ("take v 0", "pending"),
                ("take v 1", "pending"),
            ],
        },
    ]
}
