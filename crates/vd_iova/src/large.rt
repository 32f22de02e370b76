//! Places of more than 64 slots, which start with a word.

ghost use Rattle.std.specs.Prelude.{◌≡◌, ◌+◌, ◌-◌, ◌*◌, ◌/◌, ◌%◌, ◌<◌, ◌≤◌, ◌^◌, ℕ, MatchOption, length, if◌then◌else◌};
ghost use Rattle.vd_num.specs.Number.{is_within};
ghost use Rattle.vd_iova.specs.Bits.{bit, IsClear, IsFullWord, IsSearch, IsSummary, NoRun, IsTopRun, Takes};

use crate::row::{fill, mark, run_clear};
use crate::word::with_bits;
use std::sync::ledger::Ledger;
use vd_num::{Steps, Words};

/// The top run of `n` slots. No word is looked at twice, since no two places overlap.
fn find<L: Ledger>(
    words: &Words,
    first: usize,
    end: usize,
    n: usize,
    step: usize,
    steps: &mut Steps<L>,
) -> Option<usize>
    requires search { IsSearch words.now step n first end }
    requires whole { (q : ℕ) × (step ≡ q * 64) }
    ensures run { MatchOption result
        (NoRun words.now step n 0 (end + 1 - n))
        (λ s. IsTopRun words.now step n (end + 1 - n) s × (s + n ≤ end)) }
    ensures cost { steps.new ≤ steps.old + (end - first + 63) / 64 }
{
    let mut next = (end - n) / step * step + step;
    while next >= first + step {
        let start = next - step;
        if run_clear(words, start / 64, n, steps) {
            return Some(start);
        }
        next = start;
    }
    None
}

/// Sets the first `rest` bits of a word, if any, and answers how many words are full by that.
fn take_rest<L: Ledger>(words: &mut Words, at: usize, rest: u32, steps: &mut Steps<L>) -> usize
    requires few { rest < 64 }
    requires inside { 64 * at + rest ≤ 64 * length words.old }
    requires small { length words.old ≤ 1024 }
    ensures bits { (p : ℕ) → bit words.new p ≡ (if is_within (64 * at) rest p then 1 else bit words.old p) }
    ensures len { length words.new ≡ length words.old }
    ensures most { result ≤ 1 }
    ensures some { result ≡ 1 → 0 < rest }
    ensures full { result ≡ 1 → IsFullWord words.new at }
    ensures open { result ≡ 0 → 0 < rest → IsFullWord words.new at → ⊥ }
    ensures cost { steps.new ≤ steps.old + 1 }
{
    if rest == 0 {
        return 0;
    }
    let old = words.look(at, steps);
    let word = with_bits(old, 0, rest);
    words.put(at, word);
    if word == u64::MAX { 1 } else { 0 }
}

/// Sets the bits of a run of clear ones from the start of a word on, and the summary bits of full words.
fn take_found<L: Ledger>(
    words: &mut Words,
    full: &mut Words,
    at: usize,
    n: usize,
    steps: &mut Steps<L>,
)
    requires some { 0 < n }
    requires inside { 64 * at + n ≤ 64 * length words.old }
    requires small { length words.old ≤ 1024 }
    requires summary { IsSummary words.old full.old }
    requires clear { IsClear words.old (64 * at) n }
    ensures takes { Takes (64 * at) n words.old full.old words.new full.new }
    ensures cost { steps.new ≤ steps.old + (((n + 63) / 64 + 126) / 64 + 1) }
{
    let whole = n / 64;
    fill(words, at, whole);
    let more = take_rest(words, at + whole, (n % 64) as u32, steps);
    mark(full, at, whole + more, steps);
}

/// Takes the top run of `n` slots.
pub fn take<L: Ledger>(
    words: &mut Words,
    full: &mut Words,
    first: usize,
    end: usize,
    n: usize,
    step: usize,
    steps: &mut Steps<L>,
) -> Option<usize>
    requires search { IsSearch words.old step n first end }
    requires whole { (q : ℕ) × (step ≡ q * 64) }
    requires summary { IsSummary words.old full.old }
    ensures run { MatchOption result
        (NoRun words.old step n 0 (end + 1 - n) × (words.new ≡ words.old) × (full.new ≡ full.old))
        (λ s. IsTopRun words.old step n (end + 1 - n) s × Takes s n words.old full.old words.new full.new) }
    ensures cost { steps.new ≤ steps.old + ((end - first) / 64 + (end - first) / 4096 + 4) }
{
    let start = find(words, first, end, n, step, steps)?;
    take_found(words, full, start / 64, n, steps);
    Some(start)
}
