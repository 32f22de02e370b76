//! Where mappings, coherent regions and a registration lie.

ghost use Rattle.std.specs.Prelude.{◌≡◌, ◌*◌, ◌/◌, Some, ◌<◌, ◌≤◌, ◌^◌, ◌==◌, ◌&&◌, ℕ, nat_lt, min, ◌+◌, ◌-◌};
ghost use Rattle.vd_num.specs.Number.{is_within, pages_of};
ghost use Rattle.vd_model.specs.declared.memory.Origin.TheVariants.{Handed};
ghost use Rattle.vd_model.specs.Live.{page_of};
ghost use Rattle.vd_origin_moves.specs.Placed.{stretch_meets, stretch_of, covers, coherent};

use vd_model::{Origin, Want};
use vd_num::{SLOT_SIZE, pages};

/// Slots in a row: the first, and how many.
#[derive(Clone, Copy)]
pub struct Stretch {
    pub slot: u64,
    pub count: u64,
}

impl Stretch {
    /// Whether one of the slots lies in a page, where a page has `per_page` slots.
    pub fn meets(&self, page: u64, per_page: u64) -> bool
        ensures { result ≡ stretch_meets per_page page self.now }
    {
        let start = u128::from(per_page) * u128::from(page);
        let end = u128::from(self.slot) + u128::from(self.count);
        start < end && u128::from(self.slot) < start + u128::from(per_page)
    }

    /// Whether another stretch lies in this one.
    pub fn has(&self, other: &Stretch) -> bool
        ensures { result ≡ covers self.now other.now }
    {
        let end = u128::from(self.slot) + u128::from(self.count);
        self.slot <= other.slot && u128::from(other.slot) + u128::from(other.count) <= end
    }
}

/// A live mapping: its number, the address of its first byte, and what it maps.
#[derive(Clone, Copy)]
pub struct Placed {
    pub number: u64,
    pub iova: u64,
    pub want: Want,
}

impl Placed {
    /// Its slots.
    pub fn stretch(&self) -> Stretch
        ensures { result ≡ stretch_of self.now }
    {
        Stretch {
            slot: self.iova / SLOT_SIZE,
            count: pages(self.want.len),
        }
    }

    /// Its bytes.
    pub fn span(&self) -> Span
        ensures { result ≡ record { at = 4096 * (self.now.iova / 4096); len = self.now.want.len } }
    {
        Span {
            at: SLOT_SIZE * (self.iova / SLOT_SIZE),
            len: self.want.len,
        }
    }

    /// The origin of bytes that it hands.
    pub fn origin(&self) -> Origin
        ensures { result ≡ Handed (Some self.now.number) }
    {
        Origin::Handed {
            mapping: Some(self.number),
        }
    }
}

/// A live coherent region: its number, the address of its first byte, and how many bytes were asked for.
#[derive(Clone, Copy)]
pub struct Shared {
    pub number: u64,
    pub iova: u64,
    pub len: u64,
}

impl Shared {
    /// Whether a slot is one of its.
    pub fn has(&self, slot: u64) -> bool
        ensures { result ≡ is_within (coherent self.now).slot (pages_of self.now.len) slot }
    {
        let first = self.iova / SLOT_SIZE;
        first <= slot && slot - first < pages(self.len)
    }
}

/// A registration: where in the area the bounce memory lies, and how many bytes it has.
#[derive(Clone, Copy)]
pub struct Kept {
    pub base: u64,
    pub size: u64,
}

/// Bytes in a row: the address of the first, and how many.
#[derive(Clone, Copy)]
pub struct Span {
    pub at: u64,
    pub len: u64,
}

impl Span {
    /// The bytes of a page of `per_page` slots.
    pub fn of_page(page: u64, per_page: u64) -> Span
        requires page { page < 2 ^ 40 }
        requires some { 0 < per_page }
        requires size { per_page ≤ 16 }
        ensures at { result.at ≡ page * (4096 * per_page) }
        ensures has { (a : ℕ) → is_within result.at result.len a ≡ (page_of per_page a == page) }
    {
        let len = SLOT_SIZE * per_page;
        Span {
            at: page * len,
            len,
        }
    }

    /// Those of the bytes that lie below an address.
    pub fn below(&self, end: u64) -> Span
        ensures at { result.at ≡ min self.now.at end }
        ensures len { result.len ≡ min self.now.len (end - result.at) }
        ensures inside { result.at + result.len ≤ end }
        ensures has { (a : ℕ) →
            is_within result.at result.len a ≡ (is_within self.now.at self.now.len a && nat_lt a end) }
    {
        let at = self.at.min(end);
        Span {
            at,
            len: self.len.min(end - at),
        }
    }
}
