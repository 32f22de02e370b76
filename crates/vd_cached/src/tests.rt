//! Words of a run over a cache.

use super::*;
use std::alloc::{AllocError, Global};
use std::test::Fail;
use vd_options::WordsError;

fn words_of(alloc: Global, words: &[&str]) -> Result<Vec<String>, AllocError> {
    let mut all = Vec::new(alloc);
    for word in words {
        all.push(String::from_str(alloc, word)?)?;
    }
    Ok(all)
}

/// The lines that the words ask for, and how many words the run itself has.
fn asked(alloc: Global, words: &[&str]) -> Result<Result<(u64, usize), WordsError>, AllocError> {
    let words = words_of(alloc, words)?;
    Ok(match read_cached_words(alloc, &words) {
        Ok(words) => Ok((words.lines, words.run.len())),
        Err(error) => Err(error),
    })
}

#[test]
fn lines_and_pairs_are_read(rt: HostRuntime) -> Result<(), Fail> {
    assert_eq!(rt;
        asked(rt.alloc(), &["cached", "4", "--sectors", "64"])?,
        Ok((4, 3))
    );
    for words in [
        ["cached", "0"],
        ["cached", "65537"],
        ["cached", "04"],
        ["run", "4"],
    ] {
        assert_eq!(rt; asked(rt.alloc(), &words)?, Err(WordsError::Usage));
    }
    Ok(())
}
