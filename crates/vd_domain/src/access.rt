//! Accesses to bounce memory and to the coherent memory behind it.

ghost use Rattle.std.specs.Prelude.{◌≡◌, ◌+◌, ◌-◌, ◌*◌, ◌<◌, ◌≤◌, ◌^◌, ℕ, true, None, length, slice_index, take, min, if◌then◌else◌};
ghost use Rattle.vd_num.specs.Number.{is_within};
ghost use Rattle.vd_bounce.specs.Frames.{Holds, Keeps};
ghost use Rattle.vd_bounce.specs.Bounce.{Bounce, Place, Iova, value, home_place, over, bounce_len, is_page_present, SameShape};
ghost use Rattle.vd_model.specs.AreaTurns.{first_failing};
ghost use Rattle.vd_domain.specs.Reached.{is_reached, byte_at, IsSmall};

use crate::pages::first_missing as first_missing_in;
use vd_bounce::BounceMap;
use vd_num::SLOT_SIZE;
use vd_pool::Pool;

/// Where bounce memory ends and coherent memory begins.
pub fn end_of(bounce: &BounceMap) -> u64
    requires { IsSmall bounce.now }
    ensures { result ≡ bounce_len bounce.now }
{
    SLOT_SIZE * bounce.per_page() as u64 * bounce.pages() as u64
}

/// How many of `len` bytes from an address on lie below the end of bounce memory.
fn near(end: u64, at: u64, len: usize) -> usize
    ensures { result ≡ min len (end - at) }
{
    len.min(end.saturating_sub(at) as usize)
}

/// Whether some addresses lie in one page, which can be accessed. Most accesses are of this kind.
fn is_in_page(bounce: &BounceMap, shared: &BounceMap, at: u64, len: usize) -> bool
    requires { IsSmall bounce.now }
    ensures { result ≡ true → (a : ℕ) → at ≤ a → a < at + len → is_reached bounce.now shared.now a ≡ true }
{
    let end = end_of(bounce);
    if at < end {
        bounce.is_in_page(at, len)
    } else {
        shared.is_in_page(at - end, len)
    }
}

/// The first of some addresses that can't be accessed.
pub fn first_missing(bounce: &BounceMap, shared: &BounceMap, at: u64, len: usize) -> Option<u64>
    requires small { IsSmall bounce.now }
    requires shared_small { IsSmall shared.now }
    ensures { result ≡ first_failing (is_reached bounce.now shared.now) at len }
{
    if is_in_page(bounce, shared, at, len) {
        return None;
    }
    let end = end_of(bounce);
    let near = near(end, at, len);
    if let Some(bad) = first_missing_in(bounce, at, near as u64) {
        return Some(bad);
    }
    match first_missing_in(shared, at.saturating_sub(end), (len - near) as u64) {
        Some(bad) => Some(bad + end),
        None => None,
    }
}

/// Fills a slice with the bytes from an address on.
pub fn read(
    bounce: &BounceMap,
    pool: &Pool,
    shared: &BounceMap,
    store: &Pool,
    at: u64,
    out: &mut [u8],
)
    requires holds { Holds bounce.now.frames pool.now }
    requires size { pool.now.per_page ≡ bounce.now.per_page }
    requires shared_holds { Holds shared.now.frames store.now }
    requires shared_size { store.now.per_page ≡ shared.now.per_page }
    requires small { IsSmall bounce.now }
    requires reach { (a : ℕ) → at ≤ a → a < at + length out.old → is_reached bounce.now shared.now a ≡ true }
    ensures { (i : ℕ) → i < length out.old →
        slice_index out.new i ≡ byte_at bounce.now pool.now shared.now store.now (at + i) }
{
    let end = end_of(bounce);
    let near = near(end, at, out.len());
    let (low, high) = out.split_at_mut(near);
    bounce.get(pool, at, low);
    shared.get(store, at.saturating_sub(end), high);
}

/// Writes bytes from an address on.
pub fn write(
    bounce: &mut BounceMap,
    pool: &mut Pool,
    shared: &mut BounceMap,
    store: &mut Pool,
    at: u64,
    bytes: &[u8],
)
    requires holds { Holds bounce.old.frames pool.old }
    requires size { pool.old.per_page ≡ bounce.old.per_page }
    requires shared_holds { Holds shared.old.frames store.old }
    requires shared_size { store.old.per_page ≡ shared.old.per_page }
    requires small { IsSmall bounce.old }
    requires plain { shared.old.user ≡ None }
    requires reach { (a : ℕ) → at ≤ a → a < at + length bytes.now →
        is_reached bounce.old shared.old a ≡ true }
    ensures kept { Keeps bounce.old.frames bounce.new.frames pool.old pool.new }
    ensures shared_kept { Keeps shared.old.frames shared.new.frames store.old store.new }
    ensures bytes { (x : Place) → value bounce.new pool.new x
        ≡ over (home_place bounce.old at)
        (take (min (length bytes.now) (bounce_len bounce.old - at)) bytes.now) x (value bounce.old pool.old x) }
    ensures shared_bytes { (b : ℕ) → value shared.new store.new (Iova b)
        ≡ (if is_within at (length bytes.now) (bounce_len bounce.old + b) then slice_index bytes.now
        (bounce_len bounce.old + b - at)
        else value shared.old store.old (Iova b)) }
    ensures present { (p : ℕ) → is_page_present bounce.new p ≡ is_page_present bounce.old p }
    ensures shared_present { (p : ℕ) → is_page_present shared.new p ≡ is_page_present shared.old p }
    ensures frames { bounce.new.frames ≡ bounce.old.frames }
    ensures same { SameShape bounce.old bounce.new }
    ensures shared_same { SameShape shared.old shared.new }
{
    let end = end_of(bounce);
    let near = near(end, at, bytes.len());
    bounce.put(pool, at, &bytes[..near]);
    shared.put(store, at.saturating_sub(end), &bytes[near..]);
}
