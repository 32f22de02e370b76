//! What is kept of origins, and the changes that it takes one by one.

ghost use Rattle.std.specs.Prelude.{◌≡◌, ◌+◌, ◌*◌, ◌/◌, ◌<◌, ◌≤◌, ◌^◌, ◌==◌, ◌&&◌, ◌||◌, not, ℕ, [], ◌∷◌, ◌++◌, find, filter, map, nat_lt, if◌then◌else◌, Some, None, is_some, OnOk, OnErr};
ghost use Rattle.std.specs.List.{list_any};
ghost use Rattle.vd_model.specs.declared.memory.Origin.TheVariants.{Handed};
ghost use Rattle.vd_model.specs.Live.{region_covers, page_of};
ghost use Rattle.vd_origins.specs.Runs.{origin_at};
ghost use Rattle.vd_origin_moves.specs.Placed.{coherent, stretch_of, lies_in_area, base_of};
ghost use Rattle.vd_provenance.specs.Keeping.{PutAt, AreaSet, PagesCleared, HandedBy, Met, Adopted, Returned, is_there};

use crate::lists::{
    drop_mapping, drop_shared, find_mapping, find_shared, is_covered, is_shared, stretches,
};
use std::alloc::{AllocError, Global};
use std::marker::Model;
use vd_model::Origin;
use vd_num::SLOT_SIZE;
use vd_origin_moves::{
    Kept, Placed, Shared, Span, Stretch, adopt, clear_absent, give_back, has_page, put,
};
use vd_origins::Origins;

/// Where each byte that a daemon may see of one device came from.
#[derive(Drop)]
pub struct Provenance {
    bus: Origins,
    area: Origins,
    kept: Option<Kept>,
    live: Vec<Placed>,
    shared: Vec<Shared>,
    met: Vec<Stretch>,
}

impl Model for Provenance {
    ghost use Rattle.vd_provenance.specs.Keeping.{Traced, IsInside};

    ghost Value = { Traced };

    ghost view = { λ p. record {
      bus = p.bus;
      area = p.area;
      kept = p.kept;
      live = p.live.items;
      shared = p.shared.items;
      met = p.met.items;
    } };

    ghost invariant = { λ p. IsInside p.kept };
}

impl Provenance {
    ghost use Rattle.vd_provenance.specs.Keeping.{KeepsOrigins};

    /// Of a device to which nothing was done.
    pub fn new(alloc: Global) -> Provenance
        ensures { (g : ℕ) → KeepsOrigins g [] result }
    {
        Provenance {
            bus: Origins::new(alloc),
            area: Origins::new(alloc),
            kept: None,
            live: Vec::new(alloc),
            shared: Vec::new(alloc),
            met: Vec::new(alloc),
        }
    }

    /// Some bytes get an origin, wherever they are kept.
    pub(crate) fn put(&mut self, span: Span, origin: Origin) -> Result<(), AllocError>
        ensures { OnOk result (PutAt span.at span.len origin self.old self.new) }
    {
        put(&mut self.bus, &mut self.area, self.kept, span, origin)
    }

    /// Some bytes of the area get an origin.
    pub(crate) fn set_area(&mut self, span: Span, origin: Origin) -> Result<(), AllocError>
        ensures { OnOk result (AreaSet span.at span.len origin self.old self.new) }
    {
        self.area.set(span.at, span.len, origin)
    }

    /// The bytes of the pages that a stretch meets become zeros, where the pages aren't present.
    pub(crate) fn clear(&mut self, stretch: Stretch, per_page: u64) -> Result<(), AllocError>
        requires small { stretch.slot + stretch.count ≤ 2 ^ 32 }
        requires some { 0 < per_page }
        requires size { per_page ≤ 16 }
        ensures { OnOk result (PagesCleared per_page stretch self.old self.new) }
    {
        if self.kept.is_some() {
            return Ok(());
        }
        clear_absent(&mut self.bus, &self.met, stretch, per_page)
    }

    /// The bytes of a mapping come from it, if it hands any.
    pub(crate) fn hand(&mut self, placed: &Placed) -> Result<(), AllocError>
        ensures { OnOk result (HandedBy placed.now self.old self.new) }
    {
        if !placed.want.dir.is_to_device() {
            return Ok(());
        }
        self.put(placed.span(), placed.origin())
    }

    /// A stretch meets its pages.
    pub(crate) fn meet(&mut self, stretch: Stretch) -> Result<(), AllocError>
        ensures { OnOk result (Met stretch self.old self.new) }
    {
        if is_covered(&self.met, stretch) {
            return Ok(());
        }
        self.met.push(stretch)?;
        Ok(())
    }

    /// A mapping is live.
    pub(crate) fn enter(&mut self, placed: Placed) -> Result<(), AllocError>
        ensures { OnOk result (self.new ≡ record self.old { live = self.old.live ++ placed ∷ [] }) }
    {
        self.live.push(placed)?;
        Ok(())
    }

    /// The mapping of this number isn't live.
    pub(crate) fn leave(&mut self, number: u64)
        ensures { self.new ≡ record self.old { live = filter (λ p. not (p.number == number)) self.old.live } }
    {
        drop_mapping(&mut self.live, number);
    }

    /// The live mapping of this number.
    pub(crate) fn mapping(&self, number: u64) -> Option<Placed>
        ensures { result ≡ find (λ p. p.number == number) self.now.live }
    {
        find_mapping(&self.live, number)
    }

    /// A coherent region is live.
    pub(crate) fn enter_shared(&mut self, region: Shared) -> Result<(), AllocError>
        ensures { OnOk result (self.new ≡ record self.old { shared = self.old.shared ++ region ∷ [] }) }
    {
        self.shared.push(region)?;
        Ok(())
    }

    /// The coherent region of this number isn't live.
    pub(crate) fn leave_shared(&mut self, number: u64)
        ensures { self.new ≡ record self.old { shared = filter (λ r. not (r.number == number)) self.old.shared } }
    {
        drop_shared(&mut self.shared, number);
    }

    /// The live coherent region of this number.
    pub(crate) fn region(&self, number: u64) -> Option<Shared>
        ensures { result ≡ find (λ r. r.number == number) self.now.shared }
    {
        find_shared(&self.shared, number)
    }

    /// Bytes of a coherent region get the driver's origin.
    pub(crate) fn put_in(
        &mut self,
        shared: &Shared,
        offset: u64,
        len: u64,
    ) -> Result<(), AllocError>
        ensures { OnOk result (PutAt (4096 * (shared.now.iova / 4096) + offset) len (Handed None) self.old self.new) }
    {
        let start = SLOT_SIZE * (shared.iova / SLOT_SIZE);
        match start.checked_add(offset) {
            Some(at) => self.put(Span { at, len }, Origin::Handed { mapping: None }),
            None => Ok(()),
        }
    }

    /// Whether a registration stands.
    pub(crate) fn is_registered(&self) -> bool
        ensures { result ≡ is_some self.now.kept }
    {
        self.kept.is_some()
    }

    /// A registration begins, and the area takes the pages in use.
    pub(crate) fn adopt(&mut self, kept: Kept, per_page: u64) -> Result<(), AllocError>
        requires small { kept.base + kept.size ≤ 2 ^ 32 }
        requires some { 0 < per_page }
        requires size { per_page ≤ 16 }
        ensures { OnOk result (Adopted per_page kept self.old self.new) }
    {
        adopt(&mut self.area, &self.bus, kept, &self.live, per_page)?;
        self.kept = Some(kept);
        Ok(())
    }

    /// The pages in use come back from the area, if a registration stands.
    pub(crate) fn give_back(&mut self, per_page: u64) -> Result<(), AllocError>
        requires some { 0 < per_page }
        requires size { per_page ≤ 16 }
        ensures { OnOk result (Returned per_page self.old self.new) }
    {
        match self.kept {
            None => Ok(()),
            Some(kept) => give_back(&mut self.bus, &self.area, kept, &self.live, per_page),
        }
    }

    /// No registration stands, and the pages in use alone are present.
    pub(crate) fn end(&mut self) -> Result<(), AllocError>
        ensures { OnOk result (self.new ≡ record self.old { kept = None; met = map stretch_of self.old.live }) }
    {
        self.met = stretches(&self.live)?;
        self.kept = None;
        Ok(())
    }

    /// Whether an address lies in a present page of the bounce memory, which has `bounce` slots.
    pub(crate) fn is_bounced(&self, at: u64, bounce: u64, per_page: u64) -> bool
        requires some { 0 < per_page }
        requires size { per_page ≤ 16 }
        requires small { bounce ≤ 2 ^ 32 }
        ensures { result ≡ (nat_lt at (4096 * bounce) && is_there per_page self.now (page_of per_page at)) }
    {
        let page = at / (SLOT_SIZE * per_page);
        at < SLOT_SIZE * bounce && (self.kept.is_some() || has_page(&self.met, page, per_page))
    }

    /// Whether an address lies in a live coherent region.
    pub(crate) fn is_shared(&self, at: u64) -> bool
        ensures { result ≡ list_any (λ r. region_covers (coherent r) at) self.now.shared }
    {
        is_shared(&self.shared, at)
    }

    /// Whether an address can be accessed.
    pub(crate) fn sees(&self, at: u64, bounce: u64, per_page: u64) -> bool
        requires some { 0 < per_page }
        requires size { per_page ≤ 16 }
        requires small { bounce ≤ 2 ^ 32 }
        ensures { result ≡ ((nat_lt at (4096 * bounce) && is_there per_page self.now (page_of per_page at))
            || list_any (λ r. region_covers (coherent r) at) self.now.shared) }
    {
        self.is_bounced(at, bounce, per_page) || self.is_shared(at)
    }

    /// The origin of the byte at an address, wherever it is kept.
    pub(crate) fn origin(&self, at: u64) -> Origin
        ensures { result ≡ (if lies_in_area self.now.kept at then origin_at self.now.area
            (base_of self.now.kept + at) else origin_at self.now.bus at) }
    {
        match self.kept {
            Some(kept) if at < kept.size => self.area.get(kept.base + at),
            _ => self.bus.get(at),
        }
    }
}
