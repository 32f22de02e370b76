//! Values by numbers that are given out in order.

ghost use Rattle.std.specs.Prelude.{◌≡◌, ◌+◌, ◌<◌, ◌^◌, ◌==◌, not, ℕ, [], ◌∷◌, ◌++◌, ◌-◌, List, filter, find, length, nat_lt, IfOk, OnErr};
ghost use Rattle.std.specs.Option.{option_map};
ghost use Rattle.vd_domain.specs.Numbered.{IsRising};

use crate::remaining::Remaining;
use std::alloc::{AllocError, Global};
use std::marker::Model;

/// Values with numbers from 0 on, in the order in which they were made. A number isn't given out again.
#[derive(Drop)]
pub struct Numbered<T: Drop> {
    /// The numbers rise, since each new one is the greatest.
    entries: Remaining<(u64, T)>,
    made: u64,
}

impl<T: Drop> Model for Numbered<T> {
    ghost use Rattle.vd_domain.specs.Numbered.{Numbered, IsRising};

    ghost Value = { Numbered T };

    ghost view = { λ n. record { entries = n.entries; made = n.made } };

    ghost invariant = { λ n. IsRising 0 n.made n.entries };
}

impl<T: Copy + Drop> Numbered<T> {
    /// No value.
    pub fn new(alloc: Global) -> Numbered<T>
        ensures { result ≡ record { entries = []; made = 0 } }
    {
        Numbered {
            entries: Remaining::new(alloc),
            made: 0,
        }
    }

    /// How many were made.
    pub fn made(&self) -> u64
        ensures { result ≡ self.now.made }
    {
        self.made
    }

    /// How many are there.
    pub fn len(&self) -> u64
        ensures value { result ≡ length self.now.entries }
        ensures small { result < 2 ^ 63 }
    {
        self.entries.len() as u64
    }

    /// Adds a value and answers its number.
    pub fn push(&mut self, value: T) -> Result<u64, AllocError>
        requires { self.old.made < 2 ^ 62 }
        ensures ok { IfOk result (λ n. (n ≡ self.old.made)
            × (self.new ≡ record { entries = self.old.entries ++ (n, value) ∷ []; made = n + 1 })) }
        ensures err { OnErr result (self.new ≡ self.old) }
    {
        let number = self.made;
        match self.entries.push((number, value)) {
            Ok(()) => {
                self.made = number + 1;
                Ok(number)
            }
            Err(AllocError) => Err(AllocError),
        }
    }

    /// The value of this number, if it is there.
    pub fn get(&self, number: u64) -> Option<T>
        ensures { result ≡ option_map (λ e. e.1) (find (λ e. e.0 == number) self.now.entries) }
    {
        let at = count_below(self.entries.as_slice(), number);
        if at < self.entries.len() && self.entries[at].0 == number {
            Some(self.entries[at].1)
        } else {
            None
        }
    }

    /// The values by their numbers.
    pub fn by_number(&self) -> &[(u64, T)]
        ensures { result.now ≡ self.now.entries }
    {
        self.entries.as_slice()
    }

    /// Takes the value of this number away.
    pub fn remove(&mut self, number: u64)
        ensures { self.new ≡ record self.old {
          entries = filter
              (λ e. not (e.0 == number)) self.old.entries;
        } }
    {
        take_out(&mut self.entries, number);
    }

    /// Takes the value that was added last away, as if it had not been added.
    pub fn undo(&mut self)
        requires { 0 < self.old.made }
        ensures rest { self.new ≡ record {
          entries = filter
              (λ e. not (e.0 == self.old.made - 1)) self.old.entries;
          made = self.old.made - 1;
        } }
        ensures last { (es : List (ℕ × T)) (value : T) →
            self.old.entries ≡ es ++ (self.old.made - 1, value) ∷ [] →
            self.new ≡ record { entries = es; made = self.old.made - 1 } }
    {
        let number = self.made - 1;
        take_out(&mut self.entries, number);
        self.made = number;
    }
}

/// How many of some numbers that rise are below this one. Its entry stands there, if it has one.
fn count_below<T: Copy + Drop>(entries: &[(u64, T)], number: u64) -> usize
    requires { (high : ℕ) × IsRising 0 high entries.now }
    ensures { result ≡ length (filter (λ e. nat_lt e.0 number) entries.now) }
{
    let mut low = 0;
    let mut high = entries.len();
    while low < high {
        let middle = low + (high - low) / 2;
        if entries[middle].0 < number {
            low = middle + 1;
        } else {
            high = middle;
        }
    }
    low
}

/// Takes the entry of this number away, if there is one. The numbers rise.
fn take_out<T: Copy + Drop>(entries: &mut Remaining<(u64, T)>, number: u64)
    requires { (high : ℕ) × IsRising 0 high entries.old }
    ensures { entries.new ≡ filter (λ e. not (e.0 == number)) entries.old }
{
    let at = count_below(entries.as_slice(), number);
    if at < entries.len() && entries[at].0 == number {
        entries.remove(at);
    }
}
