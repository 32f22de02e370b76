//! Rows on buffers, mappings and bounce memory.

use super::Row;

/// A driver's bytes that a daemon changes in bounce memory. No line asks the disk for anything.
pub const BOUNCED: Row = Row {
    name: "bounced-write",
    words: &["run"],
    lines: &[
        ("dev v", "ok session 0"),
        ("buf v 616263", "ok 0"),
        ("map v 0 0 3 both", "ok 0 iova 0x3fff000"),
        ("store v 0x3fff000 78797a", "ok"),
        ("peek v 0 0 3", "ok 616263"),
        ("unmap v 0", "ok"),
        ("peek v 0 0 3", "ok 78797a"),
    ],
};

/// The rows.
pub fn rows() -> [Row; 10] {
    [
        Row {
            name: "first-load",
            words: &["run"],
            lines: &[
                ("dev v", "ok session 0"),
                ("buf v 616263", "ok 0"),
                ("map v 0 0 3 to", "ok 0 iova 0x3fff000"),
                ("load v 0x3fff000 3", "ok 616263"),
            ],
        },
        Row {
            name: "first-load-two-devices",
            words: &["run"],
            lines: &[
                ("dev v", "ok session 0"),
                ("buf v 616263", "ok 0"),
                ("map v 0 0 3 to", "ok 0 iova 0x3fff000"),
                ("load v 0x3fff000 3", "ok 616263"),
                ("dev w", "ok session 0"),
                ("zeros w 4097", "ok 0"),
                ("map w 0 0 4097 to", "ok 0 iova 0x3ffe000"),
            ],
        },
        Row {
            name: "short-tail",
            words: &["run"],
            lines: &[
                ("dev v", "ok session 0"),
                ("buf v 6162636465", "ok 0"),
                ("map v 0 0 5 to", "ok 0 iova 0x3fff000"),
                ("load v 0x3fff003 5", "ok 6465000000"),
            ],
        },
        BOUNCED,
        Row {
            name: "old-bytes-show",
            words: &["run"],
            lines: &[
                ("dev v", "ok session 0"),
                ("buf v 736563", "ok 0"),
                ("map v 0 0 3 to", "ok 0 iova 0x3fff000"),
                ("unmap v 0", "ok"),
                ("buf v 000000", "ok 1"),
                ("map v 1 0 3 from", "ok 1 iova 0x3fff000"),
                ("load v 0x3fff000 3", "ok 736563"),
                ("unmap v 1", "ok"),
                ("peek v 1 0 3", "ok 736563"),
            ],
        },
        Row {
            name: "map-refusals",
            words: &["run"],
            lines: &[
                ("dev v", "ok session 0"),
                ("buf v 61", "ok 0"),
                ("map v 0 0 0 to", "err 22"),
                ("map v 0 1 1 to", "err 22"),
                ("map v 9 0 1 to", "err 2"),
                ("unmap v 0", "err 2"),
                ("map v 0 0 1 to", "ok 0 iova 0x3fff000"),
                ("syncdev v 0", "ok"),
                ("synccpu v 0", "err 22"),
                ("unmap v 0", "ok"),
                ("unmap v 0", "err 2"),
            ],
        },
        Row {
            name: "placement",
            words: &["run"],
            lines: &[
                ("dev v", "ok session 0"),
                ("buf v 61", "ok 0"),
                ("map v 0 0 1 to", "ok 0 iova 0x3fff000"),
                ("map v 0 0 1 to", "ok 1 iova 0x3ffe000"),
                ("zeros v 12288", "ok 1"),
                ("map v 1 0 12288 from", "ok 2 iova 0x3ff8000"),
            ],
        },
        Row {
            name: "placement-large",
            words: &["run"],
            lines: &[
                ("dev w", "ok session 0"),
                ("zeros w 33554433", "ok 0"),
                ("map w 0 0 33554433 from", "err 28"),
                ("map w 0 0 33554432 from", "ok 0 iova 0x2000000"),
            ],
        },
        Row {
            name: "full-bounce",
            words: &["run", "--bounce-pages", "2"],
            lines: &[
                ("dev v", "ok session 0"),
                ("buf v 61", "ok 0"),
                ("map v 0 0 1 to", "ok 0 iova 0x1000"),
                ("map v 0 0 1 to", "err 28"),
                ("unmap v 0", "ok"),
                ("map v 0 0 1 to", "ok 1 iova 0x1000"),
            ],
        },
        Row {
            name: "frames-between-devices",
            words: &["run"],
            lines: &[
                ("dev a", "ok session 0"),
                ("buf a 736563", "ok 0"),
                ("map a 0 0 3 to", "ok 0 iova 0x3fff000"),
                ("detach a", "err 16"),
                ("unmap a 0", "ok"),
                ("close a", "ok"),
                ("detach a", "ok"),
                ("destroy a", "ok"),
                ("dev b", "ok session 0"),
                ("zeros b 3", "ok 0"),
                ("map b 0 0 3 from", "ok 0 iova 0x3fff000"),
                ("load b 0x3fff000 3", "ok 000000"),
            ],
        },
    ]
}
