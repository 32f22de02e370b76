//! Runs of bits in a row of words.

ghost use Rattle.std.specs.Prelude.{◌≡◌, ◌+◌, ◌-◌, ◌*◌, ◌/◌, ◌%◌, ◌<◌, ◌≤◌, ◌^◌, ◌↔◌, ℕ, IsTrue, length, if◌then◌else◌};
ghost use Rattle.vd_num.specs.Number.{is_within};
ghost use Rattle.vd_iova.specs.Bits.{bit, IsClear};

use crate::word::{are_clear, with_bits, without_bits};
use std::sync::ledger::Ledger;
use vd_num::{Steps, Words};

/// Sets the `n` bits from `start` on, a word at a time.
pub fn mark<L: Ledger>(words: &mut Words, start: usize, n: usize, steps: &mut Steps<L>)
    requires fits { start + n ≤ 64 * length words.old }
    requires small { length words.old ≤ 1024 }
    ensures bits { (p : ℕ) → bit words.new p ≡ (if is_within start n p then 1 else bit words.old p) }
    ensures len { length words.new ≡ length words.old }
    ensures cost { steps.new ≤ steps.old + (start % 64 + n + 63) / 64 }
{
    let mut done = 0;
    while done < n {
        let at = start + done;
        let lo = at % 64;
        let count = (64 - lo).min(n - done);
        let word = words.look(at / 64, steps);
        words.put(at / 64, with_bits(word, lo as u32, count as u32));
        done += count;
    }
}

/// Clears the `n` bits from `start` on, a word at a time.
pub fn unmark<L: Ledger>(words: &mut Words, start: usize, n: usize, steps: &mut Steps<L>)
    requires fits { start + n ≤ 64 * length words.old }
    requires small { length words.old ≤ 1024 }
    ensures bits { (p : ℕ) → bit words.new p ≡ (if is_within start n p then 0 else bit words.old p) }
    ensures len { length words.new ≡ length words.old }
{
    let mut done = 0;
    while done < n {
        let at = start + done;
        let lo = at % 64;
        let count = (64 - lo).min(n - done);
        let word = words.look(at / 64, steps);
        words.put(at / 64, without_bits(word, lo as u32, count as u32));
        done += count;
    }
}

/// Sets every bit of `count` words.
pub fn fill(words: &mut Words, at: usize, count: usize)
    requires fits { at + count ≤ length words.old }
    requires small { length words.old ≤ 1024 }
    ensures bits { (p : ℕ) →
        bit words.new p ≡ (if is_within (64 * at) (64 * count) p then 1 else bit words.old p) }
    ensures len { length words.new ≡ length words.old }
{
    for i in at..at + count {
        words.put(i, u64::MAX);
    }
}

/// Whether `count` words are clear.
fn words_clear<L: Ledger>(words: &Words, at: usize, count: usize, steps: &mut Steps<L>) -> bool
    requires fits { at + count ≤ length words.now }
    requires small { length words.now ≤ 1024 }
    ensures clear { IsTrue result ↔ IsClear words.now (64 * at) (64 * count) }
    ensures cost { steps.new ≤ steps.old + count }
{
    for i in at..at + count {
        let word = words.look(i, steps);
        if word != 0 {
            return false;
        }
    }
    true
}

/// Whether the `n` bits from the start of a word on are clear.
pub fn run_clear<L: Ledger>(words: &Words, at: usize, n: usize, steps: &mut Steps<L>) -> bool
    requires fits { 64 * at + n ≤ 64 * length words.now }
    requires small { length words.now ≤ 1024 }
    ensures clear { IsTrue result ↔ IsClear words.now (64 * at) n }
    ensures cost { steps.new ≤ steps.old + (n + 63) / 64 }
{
    let whole = n / 64;
    let rest = n % 64;
    if !words_clear(words, at, whole, steps) {
        return false;
    }
    if rest == 0 {
        return true;
    }
    let word = words.look(at + whole, steps);
    are_clear(word, 0, rest as u32)
}
