//! The pages that ranges of slots and of addresses meet.

ghost use Rattle.std.specs.Prelude.{◌≡◌, ◌+◌, ◌-◌, ◌*◌, ◌/◌, ◌<◌, ◌≤◌, ◌^◌, ◌||◌, ◌==◌, ℕ, length, is_some, true, if◌then◌else◌, IfSome, IfNone};
ghost use Rattle.vd_num.specs.Number.{is_within};
ghost use Rattle.vd_pool.specs.Memory.{PoolMemory};
ghost use Rattle.vd_bounce.specs.Frames.{frame_of, Holds, Keeps};
ghost use Rattle.vd_bounce.specs.Bounce.{Place, value, home_place, over, page_size, bounce_len, is_page_present, IsThere, SameShape};
ghost use Rattle.vd_model.specs.AreaTurns.{first_failing};
ghost use Rattle.vd_model.specs.Puts.{is_to_device};
ghost use Rattle.vd_domain.specs.Slots.{meets_slots};

use vd_bounce::BounceMap;
use vd_model::Dir;
use vd_num::SLOT_SIZE;
use vd_pool::Pool;

/// Pages in a row: the first, and how many.
#[derive(Clone, Copy)]
pub struct Pages {
    pub first: usize,
    pub count: usize,
}

/// The pages that the slots from this one on meet, where a page has `per_page` slots.
pub fn pages_met(slot: u64, slots: u64, per_page: u64) -> Pages
    requires some { 0 < slots }
    requires size { 0 < per_page }
    requires end { slot + slots ≤ 2 ^ 62 }
    ensures met { (page : ℕ) →
        is_within result.first result.count page ≡ meets_slots per_page page slot slots }
    ensures some { 0 < result.count }
    ensures inside { (pages : ℕ) → slot + slots ≤ per_page * pages → result.first + result.count ≤ pages }
{
    let first = (slot / per_page) as usize;
    let last = ((slot + slots - 1) / per_page) as usize;
    Pages {
        first,
        count: last - first + 1,
    }
}

/// Gives frames of zeros to those of some pages that have none, also while an area is registered.
pub fn hold(map: &mut BounceMap, pool: &mut Pool, pages: Pages)
    requires holds { Holds map.old.frames pool.old }
    requires range { pages.first + pages.count ≤ length map.old.frames }
    requires small { length map.old.frames < 2 ^ 32 }
    requires spare { pages.count ≤ pool.old.spare }
    ensures kept { Keeps map.old.frames map.new.frames pool.old pool.new }
    ensures bytes { (x : Place) → value map.new pool.new x ≡ value map.old pool.old x }
    ensures frames { (p : ℕ) → p < length map.old.frames → is_some (frame_of map.new.frames p)
        ≡ (is_within pages.first pages.count p || is_some (frame_of map.old.frames p)) }
    ensures spare { pool.old.spare ≤ pool.new.spare + pages.count }
    ensures same { SameShape map.old map.new }
{
    for page in pages.first..pages.first + pages.count {
        hold_page(map, pool, page as u32);
    }
}

/// Gives frames to the pages of a mapping that have none, and puts its bytes there if it hands them.
pub fn show(map: &mut BounceMap, pool: &mut Pool, pages: Pages, dir: Dir, iova: u64, bytes: &[u8])
    requires holds { Holds map.old.frames pool.old }
    requires size { pool.old.per_page ≡ map.old.per_page }
    requires range { pages.first + pages.count ≤ length map.old.frames }
    requires small { length map.old.frames < 2 ^ 32 }
    requires spare { pages.count ≤ pool.old.spare }
    requires inside { (a : ℕ) → iova ≤ a → a < iova + length bytes.now →
        is_within pages.first pages.count (a / page_size map.old) ≡ true }
    ensures kept { Keeps map.old.frames map.new.frames pool.old pool.new }
    ensures bytes { (x : Place) → value map.new pool.new x
        ≡ (if is_to_device dir then over (home_place map.old iova) bytes.now x
        (value map.old pool.old x) else value map.old pool.old x) }
    ensures frames { (p : ℕ) → p < length map.old.frames → is_some (frame_of map.new.frames p)
        ≡ (is_within pages.first pages.count p || is_some (frame_of map.old.frames p)) }
    ensures spare { pool.old.spare ≤ pool.new.spare + pages.count }
    ensures same { SameShape map.old map.new }
{
    hold(map, pool, pages);
    if dir.is_to_device() {
        map.put(pool, iova, bytes);
    }
}

/// Gives a page a frame of zeros if it has none.
fn hold_page(map: &mut BounceMap, pool: &mut Pool, page: u32)
    requires holds { Holds map.old.frames pool.old }
    requires page { page < length map.old.frames }
    requires spare { 0 < pool.old.spare }
    ensures kept { Keeps map.old.frames map.new.frames pool.old pool.new }
    ensures bytes { (x : Place) → value map.new pool.new x ≡ value map.old pool.old x }
    ensures frames { (p : ℕ) → p < length map.old.frames → is_some (frame_of map.new.frames p)
        ≡ ((p == page) || is_some (frame_of map.old.frames p)) }
    ensures same { SameShape map.old map.new }
    ensures spare { pool.old.spare ≤ pool.new.spare + 1 }
{
    if map.is_registered() {
        map.set_aside(pool, page);
    } else {
        map.ensure(pool, page);
    }
}

/// The first of some addresses that lies in no present page.
pub fn first_missing(map: &BounceMap, from: u64, len: u64) -> Option<u64>
    requires { bounce_len map.now ≤ 2 ^ 48 }
    ensures bound { IfSome result (λ bad. from < bad → bad ≤ bounce_len map.now) }
    ensures first { result ≡ first_failing (λ a. is_page_present map.now (a / page_size map.now)) from len }
    ensures there { IfNone result (IsThere map.now from len) }
{
    let size = SLOT_SIZE * map.per_page() as u64;
    let count = map.pages() as u64;
    let mut at = from;
    let mut left = len;
    while left > 0 {
        let page = at / size;
        if page >= count || !map.present(page as u32) {
            return Some(at);
        }
        let here = (size - at % size).min(left);
        at += here;
        left -= here;
    }
    None
}
