//! Places of at most 64 slots, which lie in one word, by a summary of the words.

ghost use Rattle.std.specs.Prelude.{◌≡◌, ◌+◌, ◌-◌, ◌*◌, ◌/◌, ◌%◌, ◌<◌, ◌≤◌, ◌^◌, ℕ, MatchOption, length, is_some, slice_index, if◌then◌else◌};
ghost use Rattle.std.specs.Int.{bit_at};
ghost use Rattle.vd_num.specs.Number.{is_within};
ghost use Rattle.vd_iova.specs.Bits.{bit, IsSearch, IsSummary, SumsUp, NoRun, IsFound, IsFoundIn, IsTopRun, Takes};

use crate::word::{top_clear, top_run, with_bits, words_for};
use std::sync::ledger::Ledger;
use vd_num::{Steps, Words};

/// A run of clear bits: its word, what that word and its summary word hold, and where it starts there.
#[derive(Clone, Copy)]
struct Found {
    at: usize,
    word: u64,
    sum: u64,
    lo: u32,
}

/// The top run in the words from `from` to `to` - 1, which share a summary word. Full words are passed over.
fn find_in_group<L: Ledger>(
    words: &Words,
    sum: u64,
    from: usize,
    to: usize,
    n: u32,
    step: u32,
    steps: &mut Steps<L>,
) -> Option<Found>
    requires some { 0 < n }
    requires fits { n ≤ step }
    requires least { step < 2 * n }
    requires whole { (q : ℕ) × (64 ≡ q * step) }
    requires order { from < to }
    requires group { to ≤ from / 64 * 64 + 64 }
    requires inside { to ≤ length words.now }
    requires small { length words.now ≤ 1024 }
    requires sums { SumsUp words.now sum from to }
    ensures run { MatchOption result
        (NoRun words.now step n (64 * from) (64 * to))
        (λ f. IsFoundIn words.now step n sum from to f.at f.word f.sum f.lo) }
    ensures cost { steps.new ≤ steps.old + (to - from) }
    ensures one { n ≡ 1 → steps.new ≤ steps.old + (if is_some result then 1 else 0) }
{
    let base = from / 64 * 64;
    let mut end = (to - base) as u32;
    while let Some(bit) = top_clear(sum, end) {
        let at = base + bit as usize;
        if at < from {
            return None;
        }
        let word = words.look(at, steps);
        if let Some(lo) = top_run(word, n, step) {
            return Some(Found { at, word, sum, lo });
        }
        end = bit;
    }
    None
}

/// The top run of `n` slots, with a look at each summary word and at each word that isn't full.
fn find<L: Ledger>(
    words: &Words,
    full: &Words,
    first: usize,
    end: usize,
    n: u32,
    step: u32,
    steps: &mut Steps<L>,
) -> Option<Found>
    requires search { IsSearch words.now step n first end }
    requires whole { (q : ℕ) × (64 ≡ q * step) }
    requires summary { IsSummary words.now full.now }
    ensures run { MatchOption result
        (NoRun words.now step n 0 (64 * length words.now))
        (λ f. IsFound words.now full.now step n f.at f.word f.sum f.lo) }
    ensures cost { steps.new ≤ steps.old + ((end - first) / 64 + (end - first) / 4096 + 4) }
    ensures one { n ≡ 1 → steps.new ≤ steps.old + ((end - first) / 4096 + 3) }
{
    let low = first / 64;
    let high = words_for(end);
    let last = words_for(high);
    for group in (low / 64..last).rev() {
        let sum = full.look(group, steps);
        let from = low.max(64 * group);
        let to = high.min(64 * group + 64);
        if let Some(found) = find_in_group(words, sum, from, to, n, step, steps) {
            return Some(found);
        }
    }
    None
}

/// Sets the bits of a run that was found, and the summary bit of its word if that is full now.
fn take_found(words: &mut Words, full: &mut Words, found: Found, n: u32)
    requires some { 0 < n }
    requires fits { found.lo + n ≤ 64 }
    requires inside { found.at < length words.old }
    requires small { length words.old ≤ 1024 }
    requires summary { IsSummary words.old full.old }
    requires word { found.word ≡ slice_index words.old found.at }
    requires sum { found.sum ≡ slice_index full.old (found.at / 64) }
    requires clear { bit_at found.sum (found.at % 64) ≡ 0 }
    ensures { Takes (64 * found.at + found.lo) n words.old full.old words.new full.new }
{
    let Found { at, word, sum, lo } = found;
    let word = with_bits(word, lo, n);
    words.put(at, word);
    if word == u64::MAX {
        full.put(at / 64, with_bits(sum, (at % 64) as u32, 1));
    }
}

/// Takes the top run of `n` slots. Nothing is read again to mark it.
pub fn take<L: Ledger>(
    words: &mut Words,
    full: &mut Words,
    first: usize,
    end: usize,
    n: u32,
    step: u32,
    steps: &mut Steps<L>,
) -> Option<usize>
    requires search { IsSearch words.old step n first end }
    requires whole { (q : ℕ) × (64 ≡ q * step) }
    requires summary { IsSummary words.old full.old }
    ensures run { MatchOption result
        (NoRun words.old step n 0 (64 * length words.old) × (words.new ≡ words.old) × (full.new ≡ full.old))
        (λ s. IsTopRun words.old step n (64 * length words.old) s × Takes s n words.old full.old words.new full.new) }
    ensures cost { steps.new ≤ steps.old + ((end - first) / 64 + (end - first) / 4096 + 4) }
    ensures one { n ≡ 1 → steps.new ≤ steps.old + ((end - first) / 4096 + 3) }
{
    let found = find(words, full, first, end, n, step, steps)?;
    take_found(words, full, found, n);
    Some(64 * found.at + found.lo as usize)
}
