//! Rows of words, and how many of them were looked at.

ghost use Rattle.std.specs.Prelude.{◌≡◌, ◌+◌, ◌<◌, ◌^◌, ◌==◌, ℕ, IfOk, length, slice_index, slice_set};

use std::alloc::{AllocError, Global};
use std::marker::Model;
use std::sync::ledger::{Blank, Book, Ledger, Share};

/// How many steps were taken. It takes no bytes, and `tick` alone changes it.
#[derive(Drop)]
pub struct Steps<L: Ledger> {
    book: Book<L>,
    share: Share<L>,
}

impl<L: Ledger> Model for Steps<L> {
    ghost use Rattle.std.specs.Prelude.{ℕ, ◌<◌};

    ghost Value = { ℕ };

    ghost view = { λ s. s.book.total };

    ghost invariant = { λ s. 0 < s.share.parts };
}

impl<L: Ledger> Steps<L> {
    /// No steps, counted by a blank ledger.
    pub fn new(blank: Blank) -> Steps<L>
        requires name { blank.name ≡ L.name }
        requires parts { blank.parts ≡ L.parts }
        requires some { 0 < L.parts }
        ensures { result ≡ 0 }
    {
        let (book, share) = blank.open::<L>();
        Steps { book, share }
    }

    /// Counts one step.
    pub fn tick(&mut self)
        ensures { self.new ≡ self.old + 1 }
    {
        self.book.add(&mut self.share, 1);
    }
}

/// A row of numbers whose entries are read by `look` alone. Contracts see it as the list.
#[derive(Drop)]
pub struct Words {
    items: Vec<u64>,
}

impl Model for Words {
    ghost use Rattle.std.specs.Prelude.{List, ℕ};

    ghost Value = { List ℕ };

    ghost view = { λ w. w.items.items };
}

impl Words {
    /// A row of so many zeros.
    pub fn new(alloc: Global, len: usize) -> Result<Words, AllocError>
        ensures len { IfOk result (λ w. length w ≡ len) }
        ensures zeros { IfOk result (λ w. (i : ℕ) → slice_index w i ≡ 0) }
    {
        Ok(Words {
            items: vec![in alloc; 0; len]?,
        })
    }

    /// How many entries there are.
    pub fn len(&self) -> usize
        ensures { result ≡ length self.now }
    {
        self.items.len()
    }

    /// Whether there is none.
    pub fn is_empty(&self) -> bool
        ensures { result ≡ (length self.now == 0) }
    {
        self.items.is_empty()
    }

    /// Reads an entry, which counts as one step.
    pub fn look<L: Ledger>(&self, at: usize, steps: &mut Steps<L>) -> u64
        requires { at < length self.now }
        ensures word { result ≡ slice_index self.now at }
        ensures cost { steps.new ≡ steps.old + 1 }
        ensures fits { result < 2 ^ 64 }
    {
        steps.tick();
        self.items[at]
    }

    /// Changes one entry.
    pub fn put(&mut self, at: usize, value: u64)
        requires { at < length self.old }
        ensures { self.new ≡ slice_set self.old at value }
    {
        self.items[at] = value;
    }
}
