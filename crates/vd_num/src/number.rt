//! Slots, and the place that a range of them is aligned to.

ghost use Rattle.std.specs.Prelude.{◌≡◌, ℕ, ◌+◌, ◌*◌, ◌<◌, ◌≤◌, ◌^◌};
ghost use Rattle.vd_num.specs.Number.{pages_of, power_from};

/// The bytes of a slot, the unit in which places in the I/O address space are given. A page has 1 or 16 slots.
pub const SLOT_SIZE: u64 = 4096;

/// A range of addresses; both ends belong to it.
#[derive(Clone, Copy, Debug, PartialEq, Eq)]
pub struct Range {
    pub start: u64,
    pub last: u64,
}

/// A bus fault: the first address of an access that cannot be accessed.
#[derive(Clone, Copy, Debug, PartialEq, Eq)]
pub struct Bus {
    pub at: u64,
}

/// How many slots hold `len` bytes: the least n with `len <= 4096 * n`. It counts slots, of which a page may have 16.
pub fn pages(len: u64) -> u64
    ensures value { result ≡ pages_of len }
    ensures enough { len ≤ 4096 * result }
    ensures least { 4096 * result < len + 4096 }
{
    len / SLOT_SIZE + u64::from(!len.is_multiple_of(SLOT_SIZE))
}

/// The least power of two that is not below `pages`.
#[tactic(auto, using(crate::proofs::Doubling::doubles_first, crate::proofs::Doubling::doubles_more, crate::proofs::Doubling::doubles_end))]
pub fn align_of(pages: u64) -> u64
    requires some { 1 ≤ pages }
    requires fits { pages ≤ 2 ^ 40 }
    ensures value { result ≡ power_from pages }
    ensures enough { pages ≤ result }
    ensures least { result < 2 * pages }
{
    let mut power = 1;
    while power < pages {
        power *= 2;
    }
    power
}
