//! Runs of bits in a word.

ghost use Rattle.std.specs.Prelude.{◌≡◌, ◌+◌, ◌-◌, ◌*◌, ◌/◌, ◌%◌, ◌<◌, ◌≤◌, ◌^◌, ◌↔◌, ℕ, IsTrue, MatchOption, if◌then◌else◌};
ghost use Rattle.std.specs.Int.{bit_at};
ghost use Rattle.vd_num.specs.Number.{is_within};
ghost use Rattle.vd_iova.specs.Bits.{IsClearWord, IsTopClear, IsTopInWord};

/// How many words hold so many bits.
pub fn words_for(bits: usize) -> usize
    ensures { result ≡ (bits + 63) / 64 }
{
    bits.div_ceil(64)
}

/// The `n` bits from `lo` on.
fn mask(lo: u32, n: u32) -> u64
    requires some { 0 < n }
    requires fits { lo + n ≤ 64 }
    ensures { result ≡ 2 ^ (lo + n) - 2 ^ lo }
{
    (u64::MAX >> (64 - (lo + n))) - ((1 << lo) - 1)
}

/// A word with `n` more bits set.
pub fn with_bits(word: u64, lo: u32, n: u32) -> u64
    requires some { 0 < n }
    requires fits { lo + n ≤ 64 }
    ensures { (i : ℕ) → bit_at result i ≡ (if is_within lo n i then 1 else bit_at word i) }
{
    word | mask(lo, n)
}

/// A word with `n` bits cleared.
pub fn without_bits(word: u64, lo: u32, n: u32) -> u64
    requires some { 0 < n }
    requires fits { lo + n ≤ 64 }
    ensures { (i : ℕ) → i < 64 → bit_at result i ≡ (if is_within lo n i then 0 else bit_at word i) }
{
    word & !mask(lo, n)
}

/// Whether the `n` bits from `lo` on are clear.
pub fn are_clear(word: u64, lo: u32, n: u32) -> bool
    requires some { 0 < n }
    requires fits { lo + n ≤ 64 }
    ensures { IsTrue result ↔ IsClearWord word lo n }
{
    word & mask(lo, n) == 0
}

/// The greatest clear bit of a word below bit `end`.
pub fn top_clear(word: u64, end: u32) -> Option<u32>
    requires { end ≤ 64 }
    ensures { MatchOption result ((i : ℕ) → i < end → bit_at word i ≡ 1) (IsTopClear word end) }
{
    if end == 0 {
        return None;
    }
    let clear = !word & mask(0, end);
    if clear == 0 {
        return None;
    }
    Some(clear.ilog2())
}

/// The greatest multiple of `step` from which `n` bits of a word are clear. Each look goes past a clear bit,
/// so a full word takes none.
pub fn top_run(word: u64, n: u32, step: u32) -> Option<u32>
    requires some { 0 < n }
    requires fits { n ≤ step }
    requires whole { (q : ℕ) × (64 ≡ q * step) }
    ensures { MatchOption result
        ((k : ℕ) → k < 64 → k % step ≡ 0 → IsClearWord word k n → ⊥)
        (IsTopInWord word step n) }
{
    let mut end = 64;
    while let Some(top) = top_clear(word, end) {
        let start = top - top % step;
        if are_clear(word, start, n) {
            return Some(start);
        }
        end = start;
    }
    None
}
