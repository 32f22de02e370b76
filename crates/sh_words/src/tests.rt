//! Words of the form, and other words.

use crate::{WordsError, WorkOptions, read_words};
use std::alloc::Global;
use std::test::Fail;

/// The words of a line.
fn words_of(alloc: Global, line: &str) -> Result<Vec<String>, Fail> {
    let mut words = Vec::new(alloc);
    for word in line.split_whitespace() {
        words.push(String::from_str(alloc, word)?)?;
    }
    Ok(words)
}

/// What a line asks for: start, drivers and requests.
fn asked(alloc: Global, line: &str) -> Result<Option<(u64, u32, u32)>, Fail> {
    let words = words_of(alloc, line)?;
    match read_words(alloc, &words) {
        Ok(
            WorkOptions {
                start,
                drivers,
                requests,
            },
        ) => Ok(Some((start, drivers, requests))),
        Err(WordsError::Memory) => Err("out of memory".into()),
        Err(_) => Ok(None),
    }
}

#[test]
fn pairs_in_any_order_are_read(rt: HostRuntime) -> Result<(), Fail> {
    let alloc = rt.alloc();
    assert_eq!(rt; asked(alloc, "")?, Some((1, 4, 100)));
    assert_eq!(rt;
        asked(alloc, "--requests 2500 --drivers 8")?,
        Some((1, 8, 2500))
    );
    assert_eq!(rt;
        asked(alloc, "--start 9223372036854775807 --requests 0")?,
        Some((9223372036854775807, 4, 0))
    );
    assert_eq!(rt;
        asked(alloc, "--drivers 1 --requests 20000 --start 0")?,
        Some((0, 1, 20000))
    );
    Ok(())
}

#[test]
fn other_words_are_refused(rt: HostRuntime) -> Result<(), Fail> {
    let alloc = rt.alloc();
    for line in [
        "--drivers 8 --requests 2501",
        "--drivers 9",
        "--drivers 0",
        "--requests 20001",
        "--start 9223372036854775808",
        "--start -1",
        "--start 1 --start 1",
        "--drivers",
        "run",
        "--help",
    ] {
        assert_eq!(rt; asked(alloc, line)?, None);
    }
    Ok(())
}
