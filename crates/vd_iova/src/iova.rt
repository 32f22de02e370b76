//! The slots of an address space, taken by ranges.

ghost use Rattle.std.specs.Prelude.{◌≡◌, ◌+◌, ◌-◌, ◌*◌, ◌/◌, ◌%◌, ◌<◌, ◌≤◌, ◌^◌, ℕ, Some, None, IfOk, OnErr, OnOk, MatchOption, MatchResult, length, slice_index, slice_set, replicate, ◌==◌, if◌then◌else◌};
ghost use Rattle.vd_num.specs.Number.{power_from, is_within};
ghost use Rattle.vd_model.specs.Place.{place_of};
ghost use Rattle.vd_iova.specs.Space.{Space, taken_of, taken_at};
ghost use Rattle.vd_iova.specs.Bits.{bit, IsSummary, IsOutside, NoRun, IsTopRun, Takes};

use crate::row::{mark, unmark};
use crate::word::words_for;
use crate::{large, small};
use std::alloc::{AllocError, Global};
use std::marker::{Brand, Model};
use std::sync::ledger::{Blank, Ledger};
use vd_num::{Steps, Words, align_of};

/// No place is free.
#[derive(Clone, Copy, Debug, PartialEq, Eq)]
pub struct Full;

/// The slots `first` to `end` - 1, and which of them are taken.
///
/// `words` has a bit for each slot, set where it is taken or lies outside; `full` has a bit for each word,
/// set where every bit of it is; `counts` has the number of slots of the range that starts at each slot.
#[derive(Drop)]
pub struct Iova {
    words: Words,
    full: Words,
    counts: Vec<u32>,
    first: usize,
    end: usize,
}

impl Model for Iova {
    ghost use Rattle.vd_iova.specs.Space.{Space, IsSound};

    ghost Value = { Space };

    ghost view = { λ s. record { counts = s.counts.items; first = s.first; «end» = s.end } };

    ghost invariant = { λ s. IsSound s.words s.full
        (record { counts = s.counts.items; first = s.first; «end» = s.end }) };
}

impl Iova {
    /// The slots `first` to `end` - 1, all of them free.
    pub fn new(alloc: Global, first: u64, end: u64) -> Result<Iova, AllocError>
        requires some { first < end }
        requires small { end ≤ 65536 }
        ensures { IfOk result (λ s. s ≡ record { counts = replicate end 0; first = first; «end» = end }) }
    {
        let first = first as usize;
        let end = end as usize;
        let counts = vec![in alloc; 0; end]?;
        let groups = words_for(words_for(end));
        let mut words = Words::new(alloc, 64 * groups)?;
        let mut full = Words::new(alloc, groups)?;
        mark_outside::<Brand>(&mut words, &mut full, first, end, Blank::new(1));
        Ok(Iova {
            words,
            full,
            counts,
            first,
            end,
        })
    }

    /// Takes the greatest place for some slots.
    pub fn take(&mut self, pages: u64) -> Result<u64, Full>
        requires { 1 ≤ pages }
        ensures place { MatchResult result
            (λ s. Some s ≡ place_of (taken_of self.old) pages self.old.first self.old.end)
            (λ _. None ≡ place_of (taken_of self.old) pages self.old.first self.old.end) }
        ensures ok { IfOk result
            (λ s. self.new ≡ record self.old { counts = slice_set self.old.counts s pages }) }
        ensures taken { IfOk result
            (λ s. (q : ℕ) → taken_at self.new q ≡ (if q == s then pages else taken_at self.old q)) }
        ensures within { IfOk result (λ s. (self.old.first ≤ s) × (s + pages ≤ self.old.end)) }
        ensures fresh { IfOk result (λ s. taken_at self.old s ≡ 0) }
        ensures err { OnErr result (self.new ≡ self.old) }
    {
        self.take_blank::<Brand>(pages, Blank::new(1))
    }

    /// `take` with a ledger for its looks.
    fn take_blank<L: Ledger>(&mut self, pages: u64, blank: Blank) -> Result<u64, Full>
        requires some { 1 ≤ pages }
        requires name { blank.name ≡ L.name }
        requires parts { blank.parts ≡ L.parts }
        requires positive { 0 < L.parts }
        ensures place { MatchResult result
            (λ s. Some s ≡ place_of (taken_of self.old) pages self.old.first self.old.end)
            (λ _. None ≡ place_of (taken_of self.old) pages self.old.first self.old.end) }
        ensures ok { IfOk result
            (λ s. self.new ≡ record self.old { counts = slice_set self.old.counts s pages }) }
        ensures taken { IfOk result
            (λ s. (q : ℕ) → taken_at self.new q ≡ (if q == s then pages else taken_at self.old q)) }
        ensures within { IfOk result (λ s. (self.old.first ≤ s) × (s + pages ≤ self.old.end)) }
        ensures fresh { IfOk result (λ s. taken_at self.old s ≡ 0) }
        ensures err { OnErr result (self.new ≡ self.old) }
    {
        let mut steps = Steps::<L>::new(blank);
        self.take_counted(pages, &mut steps)
    }

    /// Takes the greatest place for some slots, and counts each look at a word.
    pub fn take_counted<L: Ledger>(&mut self, pages: u64, steps: &mut Steps<L>) -> Result<u64, Full>
        requires { 1 ≤ pages }
        ensures place { MatchResult result
            (λ s. Some s ≡ place_of (taken_of self.old) pages self.old.first self.old.end)
            (λ _. None ≡ place_of (taken_of self.old) pages self.old.first self.old.end) }
        ensures ok { IfOk result
            (λ s. self.new ≡ record self.old { counts = slice_set self.old.counts s pages }) }
        ensures taken { IfOk result
            (λ s. (q : ℕ) → taken_at self.new q ≡ (if q == s then pages else taken_at self.old q)) }
        ensures within { IfOk result (λ s. (self.old.first ≤ s) × (s + pages ≤ self.old.end)) }
        ensures fresh { IfOk result (λ s. taken_at self.old s ≡ 0) }
        ensures err { OnErr result (self.new ≡ self.old) }

        ensures cost { let n = self.old.end - self.old.first in steps.new ≤ steps.old +
            (n / 64 + n / 4096 + 4) }
        ensures cost_of_one { let n = self.old.end - self.old.first in pages ≡ 1 →
            steps.new ≤ steps.old + (n / 4096 + 3) }
    {
        if pages > (self.end - self.first) as u64 {
            return Err(Full);
        }
        let n = pages as usize;
        match take_run(
            &mut self.words,
            &mut self.full,
            self.first,
            self.end,
            n,
            steps,
        ) {
            Some(start) => {
                self.counts[start] = n as u32;
                Ok(start as u64)
            }
            None => Err(Full),
        }
    }

    /// Gives the range back that was taken at a start.
    pub fn give(&mut self, start: u64)
        requires { 0 < taken_at self.old start }
        ensures new { self.new ≡ record self.old { counts = slice_set self.old.counts start 0 } }
        ensures taken { (q : ℕ) → taken_at self.new q ≡ (if q == start then 0 else taken_at self.old q) }
    {
        let start = start as usize;
        let n = self.counts[start] as usize;
        unmark_run::<Brand>(&mut self.words, &mut self.full, start, n, Blank::new(1));
        self.counts[start] = 0;
    }
}

/// Takes the top run of `n` slots.
fn take_run<L: Ledger>(
    words: &mut Words,
    full: &mut Words,
    first: usize,
    end: usize,
    n: usize,
    steps: &mut Steps<L>,
) -> Option<usize>
    requires some { 0 < n }
    requires room { first + n ≤ end }
    requires inside { end ≤ 64 * length words.old }
    requires small { length words.old ≤ 1024 }
    requires summary { IsSummary words.old full.old }
    requires outside { IsOutside words.old first end }
    ensures run { MatchOption result
        (NoRun words.old (power_from n) n 0 (end + 1 - n) × (words.new ≡ words.old) × (full.new ≡ full.old))
        (λ s. IsTopRun words.old (power_from n) n (end + 1 - n) s × Takes s n words.old full.old words.new full.new) }
    ensures cost { steps.new ≤ steps.old + ((end - first) / 64 + (end - first) / 4096 + 4) }
    ensures one { n ≡ 1 → steps.new ≤ steps.old + ((end - first) / 4096 + 3) }
{
    let step = align_of(n as u64) as usize;
    if n <= 64 {
        small::take(words, full, first, end, n as u32, step as u32, steps)
    } else {
        large::take(words, full, first, end, n, step, steps)
    }
}

/// Sets the bits outside `first` to `end` - 1 of words that are clear.
fn mark_outside<L: Ledger>(
    words: &mut Words,
    full: &mut Words,
    first: usize,
    end: usize,
    blank: Blank,
)
    requires order { first < end }
    requires inside { end ≤ 64 * length words.old }
    requires small { length words.old ≤ 1024 }
    requires len { length words.old ≡ 64 * length full.old }
    requires clear { (p : ℕ) → bit words.old p ≡ 0 }
    requires clear_too { (p : ℕ) → bit full.old p ≡ 0 }
    requires name { blank.name ≡ L.name }
    requires parts { blank.parts ≡ L.parts }
    requires positive { 0 < L.parts }
    ensures len { length words.new ≡ length words.old }
    ensures outside { IsOutside words.new first end }
    ensures inside { (p : ℕ) → first ≤ p → p < end → bit words.new p ≡ 0 }
    ensures summary { IsSummary words.new full.new }
{
    let mut steps = Steps::<L>::new(blank);
    let low = first / 64;
    let high = words_for(end);
    mark(words, 0, first, &mut steps);
    mark(words, end, 64 * words.len() - end, &mut steps);
    mark(full, 0, low, &mut steps);
    mark(full, high, words.len() - high, &mut steps);
}

/// Clears the bits of a range, and the summary bits of its words.
fn unmark_run<L: Ledger>(words: &mut Words, full: &mut Words, start: usize, n: usize, blank: Blank)
    requires some { 0 < n }
    requires inside { start + n ≤ 64 * length words.old }
    requires small { length words.old ≤ 1024 }
    requires summary { IsSummary words.old full.old }
    requires name { blank.name ≡ L.name }
    requires parts { blank.parts ≡ L.parts }
    requires positive { 0 < L.parts }
    ensures bits { (p : ℕ) → bit words.new p ≡ (if is_within start n p then 0 else bit words.old p) }
    ensures len { length words.new ≡ length words.old }
    ensures summary { IsSummary words.new full.new }
{
    let mut steps = Steps::<L>::new(blank);
    unmark(words, start, n, &mut steps);
    unmark(full, start / 64, words_for(start % 64 + n), &mut steps);
}

#[cfg(test)]
mod tests {
    use super::*;
    use std::test::Fail;

    #[test]
    fn aligned_places(rt: HostRuntime) -> Result<(), Fail> {
        let mut space = Iova::new(rt.alloc(), 1, 16384)?;
        assert_eq!(rt; space.take(1), Ok(16383));
        let start = space.take(2)?;
        let one = space.take(1);
        let four = space.take(4);
        space.give(start);
        let again = space.take(2);
        assert_eq!(rt; start, 16380);
        assert_eq!(rt; one, Ok(16382));
        assert_eq!(rt; four, Ok(16376));
        assert_eq!(rt; again, Ok(16380));
        Ok(())
    }

    #[test]
    fn many_words(rt: HostRuntime) -> Result<(), Fail> {
        let mut space = Iova::new(rt.alloc(), 1, 16384)?;
        let places = [
            (8193, Err(Full)),
            (4097, Ok(8192)),
            (65, Ok(16256)),
            (64, Ok(16192)),
            (1, Ok(16383)),
            (3000, Ok(4096)),
        ];
        for (pages, place) in places {
            assert_eq!(rt; space.take(pages), place, "{pages} slots");
        }
        Ok(())
    }

    #[test]
    fn full(rt: HostRuntime) -> Result<(), Fail> {
        let mut space = Iova::new(rt.alloc(), 1, 2)?;
        assert_eq!(rt; space.take(1), Ok(1));
        assert_eq!(rt; space.take(1), Err(Full));
        Ok(())
    }
}
