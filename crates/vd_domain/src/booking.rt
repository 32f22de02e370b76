//! A place, a number and frames for a mapping, all of them or none.

ghost use Rattle.std.specs.Prelude.{◌≡◌, ◌+◌, ◌*◌, ◌<◌, ◌≤◌, ◌^◌, ◌++◌, ◌∷◌, [], ◌==◌, ℕ, Some, None, if◌then◌else◌, IfOk, IfSome, IfNone, OnErr, MatchResult, ◌≢◌, slice_set};
ghost use Rattle.vd_num.specs.Number.{pages_of, is_within};
ghost use Rattle.vd_pool.specs.Memory.{Grows};
ghost use Rattle.vd_iova.specs.Space.{taken_of, taken_at};
ghost use Rattle.vd_model.specs.Place.{place_of};
ghost use Rattle.vd_domain.specs.Slots.{meets_slots};

use crate::numbered::Numbered;
use crate::pages::{Pages, pages_met};
use crate::streaming::Bounced;
use vd_iova::{Full, Iova};
use vd_model::{MapError, Want};
use vd_num::pages;
use vd_pool::Pool;

/// What a mapping was given: its number, its first slot, and the pages that its slots meet.
#[derive(Clone, Copy)]
pub struct Booked {
    pub number: u64,
    pub slot: u64,
    pub pages: Pages,
}

/// Takes a place and a number for a mapping, and sees that the pool has frames for its pages. After a refusal
/// nothing is taken.
pub fn book(
    low: &mut Iova,
    mappings: &mut Numbered<Bounced>,
    pool: &mut Pool,
    per_page: u64,
    want: Want,
) -> Result<Booked, MapError>
    requires some { 0 < want.len }
    requires size { 0 < per_page }
    requires made { mappings.old.made < 2 ^ 62 }
    requires end { low.old.«end» ≤ 65536 }
    ensures place { MatchResult result
        (λ b. Some b.slot ≡ place_of (taken_of low.old) (pages_of want.len) low.old.first low.old.«end»)
        (λ e. e ≡ MapError.NoSpace →
        None ≡ place_of (taken_of low.old) (pages_of want.len) low.old.first low.old.«end») }
    ensures full { result ≢ Err MapError.Empty }
    ensures taken { IfOk result
        (λ b. (taken_at low.old b.slot ≡ 0)
        × ((q : ℕ) → taken_at low.new q
        ≡ (if q == b.slot then pages_of want.len else taken_at low.old q))) }
    ensures space { IfOk result
        (λ b. low.new ≡ record low.old {
          counts = slice_set low.old.counts b.slot
              (pages_of want.len);
        }) }
    ensures within { IfOk result
        (λ b. (low.old.first ≤ b.slot) × (b.slot + pages_of want.len ≤ low.old.«end»)) }
    ensures ends { (low.new.first ≡ low.old.first) × (low.new.«end» ≡ low.old.«end») }
    ensures numbered { IfOk result (λ b. (b.number ≡ mappings.old.made)
        × (mappings.new ≡ record {
          entries = mappings.old.entries ++
              (b.number, record { slot = b.slot; want = want }) ∷ [];
          made = b.number + 1;
        })) }
    ensures pages { IfOk result
        (λ b. (page : ℕ) → is_within b.pages.first b.pages.count page
        ≡ meets_slots per_page page b.slot (pages_of want.len)) }
    ensures inside { IfOk result
        (λ b. (n : ℕ) → b.slot + pages_of want.len ≤ per_page * n →
        b.pages.first + b.pages.count ≤ n) }
    ensures spare { IfOk result (λ b. b.pages.count ≤ pool.new.spare) }
    ensures grows { Grows pool.old pool.new }
    ensures err { OnErr result ((low.new ≡ low.old) × (mappings.new ≡ mappings.old)) }
{
    let n = pages(want.len);
    let slot = match low.take(n) {
        Ok(slot) => slot,
        Err(Full) => return Err(MapError::NoSpace),
    };
    let pages = pages_met(slot, n, per_page);
    match enroll(mappings, pool, pages.count as u64, Bounced { slot, want }) {
        Some(number) => Ok(Booked {
            number,
            slot,
            pages,
        }),
        None => {
            low.give(slot);
            Err(MapError::Memory)
        }
    }
}

/// Gives a value a number, and sees that the pool has so many frames; none where there is no memory.
pub fn enroll<T: Copy + Drop>(
    values: &mut Numbered<T>,
    pool: &mut Pool,
    frames: u64,
    value: T,
) -> Option<u64>
    requires made { values.old.made < 2 ^ 62 }
    ensures some { IfSome result (λ n. (n ≡ values.old.made)
        × (values.new ≡ record { entries = values.old.entries ++ (n, value) ∷ []; made = n + 1 })
        × (frames ≤ pool.new.spare)) }
    ensures none { IfNone result (values.new ≡ values.old) }
    ensures grows { Grows pool.old pool.new }
{
    if pool.reserve(frames).is_err() {
        return None;
    }
    values.push(value).ok()
}
