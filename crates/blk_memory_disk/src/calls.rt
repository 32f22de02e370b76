//! The calls on a disk in memory that are to fail.

ghost use Rattle.std.specs.Prelude.{◌≡◌, ◌≤◌, true};
ghost use Rattle.vd_io.specs.Told.{Rose};
ghost use Rattle.vd_io.specs.Faults.{is_to_fail, after_call, first_call};

use std::marker::Model;
use vd_num::Lines;

/// The calls: which of them are to fail, and how many did.
#[derive(Drop)]
pub struct CallCount {
    fails: Lines,
    next: Option<u64>,
    failed: u64,
}

impl Model for CallCount {
    ghost use Rattle.vd_io.specs.Faults.{Calls};

    ghost Value = { Calls };

    ghost view = { λ c. record { fails = c.fails; next = c.next; failed = c.failed } };
}

impl CallCount {
    /// No call was made yet. `fails` lists the numbers of those that are to fail, from 0.
    pub fn new(fails: Lines) -> CallCount
        ensures { result ≡ first_call fails }
    {
        CallCount {
            fails,
            next: Some(0),
            failed: 0,
        }
    }

    /// Counts one call more, and answers whether it fails.
    pub fn add(&mut self) -> bool
        ensures fails { result ≡ is_to_fail self.old }
        ensures counted { self.new ≡ after_call (is_to_fail self.old) self.old }
        ensures never_falls { self.old.failed ≤ self.new.failed }
        ensures rose { result ≡ true → Rose self.old.failed self.new.failed }
    {
        let fails = match self.next {
            None => false,
            Some(number) => self.fails.as_slice().contains(&number),
        };
        self.next = self.next.and_then(|number| number.checked_add(1));
        if fails {
            self.failed = self.failed.saturating_add(1);
        }
        fails
    }
}
