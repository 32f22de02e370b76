//! Bytes that get an origin, in bounce and coherent memory or in the area, and what pages get of each other.

ghost use Rattle.std.specs.Prelude.{◌≡◌, ◌+◌, ◌-◌, ◌*◌, ◌<◌, ◌≤◌, ◌^◌, ◌==◌, ◌&&◌, not, ℕ, nat_lt, if◌then◌else◌, Some, OnOk};
ghost use Rattle.std.specs.List.{list_any};
ghost use Rattle.vd_num.specs.Number.{is_within};
ghost use Rattle.vd_model.specs.declared.memory.Origin.TheVariants.{Zero};
ghost use Rattle.vd_model.specs.Live.{page_of};
ghost use Rattle.vd_origins.specs.Runs.{origin_at};
ghost use Rattle.vd_origin_moves.specs.Placed.{stretch_meets, stretch_of, area_has, lies_in_area};

use crate::placed::{Kept, Placed, Span, Stretch};
use std::alloc::AllocError;
use vd_model::Origin;
use vd_num::SLOT_SIZE;
use vd_origins::Origins;

/// Gives bytes at some addresses an origin, where they are kept.
pub fn put(
    bus: &mut Origins,
    area: &mut Origins,
    kept: Option<Kept>,
    span: Span,
    origin: Origin,
) -> Result<(), AllocError>
    requires { (k : Kept) → kept ≡ Some k → k.base + k.size ≤ 2 ^ 32 }
    ensures bus { OnOk result ((a : ℕ) → a < 2 ^ 64
        → origin_at bus.new a ≡
        (if not (lies_in_area kept a) && is_within span.at span.len a then origin else origin_at bus.old a)) }
    ensures area { OnOk result ((o : ℕ) → o < 2 ^ 64
        → origin_at area.new o ≡ (if area_has kept span.at span.len o then origin else origin_at area.old o)) }
{
    match kept {
        None => bus.set(span.at, span.len, origin),
        Some(kept) => put_kept(bus, area, kept, span, origin),
    }
}

/// The same while a registration stands: what lies below its size is kept in the area.
fn put_kept(
    bus: &mut Origins,
    area: &mut Origins,
    kept: Kept,
    span: Span,
    origin: Origin,
) -> Result<(), AllocError>
    requires { kept.base + kept.size ≤ 2 ^ 32 }
    ensures bus { OnOk result ((a : ℕ) → a < 2 ^ 64
        → origin_at bus.new a ≡
        (if not (lies_in_area (Some kept) a) && is_within span.at span.len a then origin else origin_at bus.old a)) }
    ensures area { OnOk result ((o : ℕ) → o < 2 ^ 64
        → origin_at area.new o ≡ (if area_has (Some kept) span.at span.len o then origin else origin_at area.old o)) }
{
    let inside = span.below(kept.size);
    area.set(kept.base + inside.at, inside.len, origin)?;
    bus.set(span.at + inside.len, span.len - inside.len, origin)
}

/// Whether one of some stretches meets a page.
pub fn has_page(met: &Vec<Stretch>, page: u64, per_page: u64) -> bool
    ensures { result ≡ list_any (stretch_meets per_page page) met.now.items }
{
    met.iter().any(|stretch| stretch.meets(page, per_page))
}

/// Whether one of some mappings meets a page.
pub fn is_used(live: &Vec<Placed>, page: u64, per_page: u64) -> bool
    ensures { result ≡ list_any (λ p. stretch_meets per_page page (stretch_of p)) live.now.items }
{
    live.iter()
        .any(|placed| placed.stretch().meets(page, per_page))
}

/// The bytes of a page that a stretch stretch_meets, if the page wasn't met before, and else no bytes.
fn absent_part(met: &Vec<Stretch>, stretch: &Stretch, page: u64, per_page: u64) -> Span
    requires page { page < 2 ^ 40 }
    requires some { 0 < per_page }
    requires size { per_page ≤ 16 }
    ensures { (a : ℕ) → is_within result.at result.len a
        ≡ ((stretch_meets per_page page stretch.now && not
        (list_any (stretch_meets per_page page) met.now.items)) && (page_of per_page a == page)) }
{
    if !stretch.meets(page, per_page) || has_page(met, page, per_page) {
        return Span { at: 0, len: 0 };
    }
    Span::of_page(page, per_page)
}

/// The bytes of a page below an end, if a mapping meets it, and else no bytes.
fn used_part(live: &Vec<Placed>, page: u64, per_page: u64, end: u64) -> Span
    requires page { page < 2 ^ 40 }
    requires some { 0 < per_page }
    requires size { per_page ≤ 16 }
    ensures inside { result.at + result.len ≤ end }
    ensures has { (a : ℕ) → is_within result.at result.len a
        ≡ (list_any (λ p. stretch_meets per_page page (stretch_of p)) live.now.items &&
        ((page_of per_page a == page) && nat_lt a end)) }
{
    if !is_used(live, page, per_page) {
        return Span { at: 0, len: 0 };
    }
    Span::of_page(page, per_page).below(end)
}

/// Makes the bytes of the pages that a stretch meets zeros, but for those of pages that were met before.
pub fn clear_absent(
    bus: &mut Origins,
    met: &Vec<Stretch>,
    stretch: Stretch,
    per_page: u64,
) -> Result<(), AllocError>
    requires small { stretch.slot + stretch.count ≤ 2 ^ 32 }
    requires some { 0 < per_page }
    requires size { per_page ≤ 16 }
    ensures { OnOk result ((a : ℕ) → a < 2 ^ 64 → origin_at bus.new a
        ≡ (if stretch_meets per_page (page_of per_page a) stretch && not
        (list_any (stretch_meets per_page (page_of per_page a)) met.now.items)
        then Zero else origin_at bus.old a)) }
{
    for page in stretch.slot / per_page..(stretch.slot + stretch.count) / per_page + 1 {
        let part = absent_part(met, &stretch, page, per_page);
        bus.set(part.at, part.len, Origin::Zero)?;
    }
    Ok(())
}

/// Gives the area the origins of the bounce memory's pages in use, at a registration.
pub fn adopt(
    area: &mut Origins,
    bus: &Origins,
    kept: Kept,
    live: &Vec<Placed>,
    per_page: u64,
) -> Result<(), AllocError>
    requires small { kept.base + kept.size ≤ 2 ^ 32 }
    requires some { 0 < per_page }
    requires size { per_page ≤ 16 }
    ensures { OnOk result ((o : ℕ) → o < 2 ^ 64 → origin_at area.new o
        ≡ (if is_within kept.base kept.size o && list_any
        (λ p. stretch_meets per_page (page_of per_page (o - kept.base)) (stretch_of p)) live.now.items
        then origin_at bus.now (o - kept.base) else origin_at area.old o)) }
{
    for page in 0..kept.size / (SLOT_SIZE * per_page) + 1 {
        let part = used_part(live, page, per_page, kept.size);
        area.copy(kept.base + part.at, part.len, bus, part.at)?;
    }
    Ok(())
}

/// Gives the bounce memory's pages in use the origins that they have in the area, at the end of a registration.
pub fn give_back(
    bus: &mut Origins,
    area: &Origins,
    kept: Kept,
    live: &Vec<Placed>,
    per_page: u64,
) -> Result<(), AllocError>
    requires small { kept.base + kept.size ≤ 2 ^ 32 }
    requires some { 0 < per_page }
    requires size { per_page ≤ 16 }
    ensures { OnOk result ((a : ℕ) → a < 2 ^ 64 → origin_at bus.new a
        ≡ (if nat_lt a kept.size && list_any
        (λ p. stretch_meets per_page (page_of per_page a) (stretch_of p)) live.now.items
        then origin_at area.now (kept.base + a) else origin_at bus.old a)) }
{
    for page in 0..kept.size / (SLOT_SIZE * per_page) + 1 {
        let part = used_part(live, page, per_page, kept.size);
        bus.copy(part.at, part.len, area, kept.base + part.at)?;
    }
    Ok(())
}
