//! The words of a run over a cache.

ghost use Rattle.std.specs.Prelude.{◌≡◌, ◌∷◌, ◌↔◌, IfOk, MatchResult, None, codes, map, string_bytes};
ghost use Rattle.vd_cached.specs.Words.{IsCached, cached_run, cached_sizes};

use std::alloc::{AllocError, Global};
use vd_options::{WordsError, number, read_sizes};

/// The most sectors that may stay dirty.
const MOST_LINES: u32 = 65_536;

/// The words of a run over a cache: how many sectors may stay dirty, and the words of the run itself.
#[derive(Drop)]
pub struct CachedWords {
    pub lines: u64,
    pub run: Vec<String>,
}

/// The words of a run with these pairs.
fn run_words(alloc: Global, pairs: &[String]) -> Result<Vec<String>, AllocError>
    ensures { IfOk result (λ all. map string_bytes all.items ≡ codes "run" ∷ map string_bytes pairs.now) }
{
    let mut all = Vec::new(alloc);
    all.push(String::from_str(alloc, "run")?)?;
    for word in pairs {
        all.push(String::from_str(alloc, word.as_str())?)?;
    }
    Ok(all)
}

/// Reads the words of a run over a cache: `cached`, a number of lines from 1 to 65,536, decimal without leading zeros,
/// and then the pairs of `run`. It takes memory for the words of the run, once they are known to be those of a run over a cache.
pub fn read_cached_words(alloc: Global, words: &Vec<String>) -> Result<CachedWords, WordsError>
    ensures { MatchResult result
        (λ w. IsCached w (cached_run (map string_bytes words.now.items)))
        (λ e. (e ≡ WordsError.Usage) ↔ (cached_sizes (map string_bytes words.now.items) ≡ None)) }
{
    let words = words.as_slice();
    if words.len() < 2 {
        return Err(WordsError::Usage);
    }
    if words[0].as_bytes() != b"cached".as_slice() {
        return Err(WordsError::Usage);
    }
    let Some(lines) = number(words[1].as_bytes(), 1, MOST_LINES) else {
        return Err(WordsError::Usage);
    };
    let pairs = &words[2..];
    if read_sizes(pairs).is_none() {
        return Err(WordsError::Usage);
    }
    match run_words(alloc, pairs) {
        Ok(run) => Ok(CachedWords {
            lines: u64::from(lines),
            run,
        }),
        Err(AllocError) => Err(WordsError::Memory),
    }
}
