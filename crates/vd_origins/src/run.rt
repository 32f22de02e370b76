//! A run of bytes of one origin, and the part of it that lies in a range.

ghost use Rattle.std.specs.Prelude.{◌≡◌, ◌+◌, ◌-◌, ◌<◌, ◌^◌, ℕ, if◌then◌else◌, Some, None};
ghost use Rattle.vd_origins.specs.Runs.{has, run_origin, kept_origin, or_origin, is_moved_from};

use vd_model::Origin;
use vd_num::Range;

/// Bytes of one origin; those at both ends belong to it. It has none where `first` is above `last`.
#[derive(Clone, Copy, Debug, PartialEq, Eq)]
pub struct Run {
    pub first: u64,
    pub last: u64,
    pub origin: Origin,
}

impl Run {
    /// Whether the byte at an address is one of the run's.
    pub fn has(&self, at: u64) -> bool
        ensures { result ≡ has self.now at }
    {
        self.first <= at && at <= self.last
    }

    /// The part of the run that lies in a range, as it lies where the range is moved to begin at `to`.
    /// Bytes that would come to lie at 2 to the 64th or above are left out.
    pub fn moved(&self, range: Range, to: u64) -> Option<Run>
        ensures { (a : ℕ) → a < 2 ^ 64
            → kept_origin result a ≡
            (if is_moved_from range to a then run_origin self.now (range.start + (a - to)) else None) }
    {
        let first = self.first.max(range.start);
        let last = self.last.min(range.last);
        if first > last {
            return None;
        }
        let start = to.checked_add(first - range.start)?;
        Some(Run {
            first: start,
            last: start.saturating_add(last - first),
            origin: self.origin,
        })
    }

    /// The run with the bytes of another one of the same origin that begins in it, or right behind it.
    pub fn joined(&self, next: &Run) -> Option<Run>
        ensures { (r : Run) → result ≡ Some r → (a : ℕ) →
            run_origin r a ≡ or_origin (run_origin self.now a) (run_origin next.now a) }
    {
        if self.origin == next.origin && self.first < next.first && next.first - 1 <= self.last {
            return Some(Run {
                last: self.last.max(next.last),
                ..*self
            });
        }
        None
    }
}
