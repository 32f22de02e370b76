//! The calls that are to fail.

ghost use Rattle.std.specs.Prelude.{◌≡◌, ◌≤◌, ◌||◌, Some, true};
ghost use Rattle.vd_io.specs.Told.{Rose};
ghost use Rattle.vd_io.specs.Faults.{is_to_fail, after_call};

use std::marker::Model;
use vd_num::Lines;

/// The calls on an object in memory: which of them are to fail, and how many did.
#[derive(Drop)]
pub struct Faults {
    fails: Lines,
    next: Option<u64>,
    count: u64,
}

impl Model for Faults {
    ghost use Rattle.vd_io.specs.Faults.{Calls};

    ghost Value = { Calls };

    ghost view = { λ f. record { fails = f.fails; next = f.next; failed = f.count } };
}

impl Faults {
    /// No call was made yet. `fails` lists the numbers of those that are to fail, from 0.
    pub fn new(fails: Lines) -> Faults
        ensures { result ≡ record { fails = fails; next = Some 0; failed = 0 } }
    {
        Faults {
            fails,
            next: Some(0),
            count: 0,
        }
    }

    /// Counts one call more, and answers whether it fails: where it is refused anyway, or listed.
    pub fn call(&mut self, is_refused: bool) -> bool
        ensures fails { result ≡ (is_refused || is_to_fail self.old) }
        ensures counted { self.new ≡ after_call (is_refused || is_to_fail self.old) self.old }
        ensures never_falls { self.old.failed ≤ self.new.failed }
        ensures rose { result ≡ true → Rose self.old.failed self.new.failed }
    {
        let is_listed = match self.next {
            None => false,
            Some(number) => self.fails.as_slice().contains(&number),
        };
        self.next = self.next.and_then(|number| number.checked_add(1));
        let fails = is_refused || is_listed;
        if fails {
            self.count = self.count.saturating_add(1);
        }
        fails
    }
}
