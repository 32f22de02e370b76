//! How many requests of each kind there are.
ghost use Rattle.std.specs.Prelude.{◌≡◌, ◌≤◌, ◌+◌, ℕ};
ghost use Rattle.sh_workload.specs.Workload.{no_requests, with_plan, with_driver, counts_of, AreAtMost};

use crate::generator::Generator;
use crate::plan::Plan;

/// How many requests of each kind there are, and how many sectors the reads and writes have.
#[derive(Clone, Copy, Debug, PartialEq, Eq)]
pub struct Counts {
    pub reads: u64,
    pub writes: u64,
    pub flushes: u64,
    pub sectors: u64,
}

impl Counts {
    const NONE: Counts = Counts {
        reads: 0,
        writes: 0,
        flushes: 0,
        sectors: 0,
    };

    /// One request more.
    fn add(&mut self, plan: &Plan)
        requires room { AreAtMost 1000000 self.old }
        requires few { plan.now.sectors ≤ 4 }
        ensures counts { self.new ≡ with_plan self.old plan.now }
        ensures bound { (k : ℕ) → AreAtMost k self.old → AreAtMost (k + 4) self.new }
    {
        match plan.kind {
            0 => self.reads += 1,
            1 => self.writes += 1,
            4 => self.flushes += 1,
            _ => {}
        }
        self.sectors += u64::from(plan.sectors);
    }

    /// The requests of a driver more.
    fn add_driver(&mut self, start: u64, driver: u32, requests: u32)
        requires room { AreAtMost 560000 self.old }
        requires few { requests ≤ 20000 }
        ensures counts { self.new ≡ with_driver start driver self.old requests }
        ensures bound { (k : ℕ) → AreAtMost k self.old → AreAtMost (k + 80000) self.new }
    {
        let mut generator = Generator::new(start, driver);
        for _ in 0..requests {
            self.add(&Plan::draw(&mut generator));
        }
    }

    /// The requests of a run.
    pub fn of(start: u64, drivers: u32, requests: u32) -> Counts
        requires { (drivers ≤ 8) × (requests ≤ 20000) }
        ensures { result ≡ counts_of start requests drivers }
    {
        let mut counts = Counts::NONE;
        for driver in 0..drivers {
            counts.add_driver(start, driver, requests);
        }
        counts
    }
}
