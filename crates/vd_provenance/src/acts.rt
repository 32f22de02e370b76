//! What is kept of origins after each act.

ghost use Rattle.std.specs.Prelude.{◌≡◌, ◌+◌, ◌*◌, ◌/◌, ◌<◌, ◌≤◌, ◌^◌, ◌==◌, ℕ, List, ◌∷◌, ◌++◌, length, find, if◌then◌else◌, Some, None, OnOk};
ghost use Rattle.vd_num.specs.Number.{pages_of};
ghost use Rattle.vd_model.specs.Acts.{Act, Node, Driver, Streaming, Coherent, Daemon_put, Area_made, Area_put, Registered, Deregistered, Mapped, Unmapped, Synced_device, Region_made, Region_freed, Driver_put};
ghost use Rattle.vd_model.specs.Live.{live_mappings, live_regions, registration_of};
ghost use Rattle.vd_model.specs.NodeTurns.{registration_end};
ghost use Rattle.vd_model.specs.Puts.{shown_put};
ghost use Rattle.vd_origin_moves.specs.Placed.{streaming, coherent};

use crate::state::Provenance;
use std::alloc::AllocError;
use vd_model::Origin;
use vd_num::{SLOT_SIZE, pages};
use vd_origin_moves::{Kept, Placed, Shared, Span};

impl Provenance {
    ghost use Rattle.vd_provenance.specs.Keeping.{KeepsOrigins, is_seen};

    /// The daemon writes some bytes.
    pub fn daemon_put(&mut self, at: u64, len: u64) -> Result<(), AllocError>
        ensures { (g : ℕ) (acts : List Act) (bytes : List ℕ) → KeepsOrigins g acts self.old → length bytes ≡ len
            → OnOk result (KeepsOrigins g (Node (Daemon_put at bytes) ∷ acts) self.new) }
    {
        self.put(Span { at, len }, Origin::Daemon)
    }

    /// The driver writes some bytes into coherent memory.
    pub fn driver_put(&mut self, at: u64, len: u64) -> Result<(), AllocError>
        ensures { (g : ℕ) (acts : List Act) (bytes : List ℕ) → KeepsOrigins g acts self.old → length bytes ≡ len
            → OnOk result (KeepsOrigins g (Driver (Driver_put at bytes) ∷ acts) self.new) }
    {
        self.put(Span { at, len }, Origin::Handed { mapping: None })
    }

    /// A range of a buffer is mapped.
    pub fn map(&mut self, placed: Placed, per_page: u64) -> Result<(), AllocError>
        requires small { placed.iova / 4096 + pages_of placed.want.len ≤ 2 ^ 32 }
        requires some { 0 < per_page }
        requires size { per_page ≤ 16 }
        ensures { (acts : List Act) → KeepsOrigins per_page acts self.old
            → OnOk result (KeepsOrigins per_page (Driver (Mapped (streaming placed)) ∷ acts) self.new) }
    {
        let stretch = placed.stretch();
        self.clear(stretch, per_page)?;
        self.hand(&placed)?;
        self.meet(stretch)?;
        self.enter(placed)
    }

    /// The mapping of this number ends.
    pub fn unmap(&mut self, number: u64)
        ensures { (g : ℕ) (acts : List Act) (m : Streaming) → KeepsOrigins g acts self.old → m.number ≡ number
            → KeepsOrigins g (Driver (Unmapped m) ∷ acts) self.new }
    {
        self.leave(number);
    }

    /// The mapping of this number hands its bytes once more.
    pub fn sync(&mut self, number: u64) -> Result<(), AllocError>
        ensures { (g : ℕ) (acts : List Act) (m : Streaming) → KeepsOrigins g acts self.old
            → find (λ l. l.number == number) (live_mappings acts) ≡ Some m
            → OnOk result (KeepsOrigins g (Driver (Synced_device m) ∷ acts) self.new) }
    {
        match self.mapping(number) {
            Some(placed) => self.put(placed.span(), placed.origin()),
            None => Ok(()),
        }
    }

    /// The driver writes some bytes into the coherent region of this number, from this byte of it on.
    pub fn driver_put_in(&mut self, region: u64, offset: u64, len: u64) -> Result<(), AllocError>
        ensures { (g : ℕ) (acts : List Act) (r : Coherent) (bytes : List ℕ) → KeepsOrigins g acts self.old →
            find (λ l. l.number == region) (live_regions acts) ≡ Some r → length bytes ≡ len →
            OnOk result (KeepsOrigins g (Driver (Driver_put (4096 * r.slot + offset) bytes) ∷ acts) self.new) }
    {
        match self.region(region) {
            Some(shared) => self.put_in(&shared, offset, len),
            None => Ok(()),
        }
    }

    /// A coherent region is made.
    pub fn share(&mut self, region: Shared) -> Result<(), AllocError>
        requires { region.len ≤ 2 ^ 62 }
        ensures { (g : ℕ) (acts : List Act) → KeepsOrigins g acts self.old
            → OnOk result (KeepsOrigins g (Driver (Region_made (coherent region)) ∷ acts) self.new) }
    {
        let span = Span {
            at: SLOT_SIZE * (region.iova / SLOT_SIZE),
            len: SLOT_SIZE * pages(region.len),
        };
        self.put(span, Origin::Zero)?;
        self.enter_shared(region)
    }

    /// The coherent region of this number is freed.
    pub fn unshare(&mut self, number: u64)
        ensures { (g : ℕ) (acts : List Act) (r : Coherent) → KeepsOrigins g acts self.old → r.number ≡ number
            → KeepsOrigins g (Driver (Region_freed r) ∷ acts) self.new }
    {
        self.leave_shared(number);
    }

    /// The daemon gets an area of zeros.
    pub fn new_area(&mut self, len: u64) -> Result<(), AllocError>
        ensures { (g : ℕ) (acts : List Act) → KeepsOrigins g acts self.old →
            OnOk result (KeepsOrigins g (Node (Area_made len) ∷ acts) self.new) }
    {
        self.set_area(Span { at: 0, len }, Origin::Zero)
    }

    /// The daemon writes bytes of its area.
    pub fn area_put(&mut self, at: u64, len: u64) -> Result<(), AllocError>
        ensures { (g : ℕ) (acts : List Act) (bytes : List ℕ) → KeepsOrigins g acts self.old → length bytes ≡ len
            → OnOk result (KeepsOrigins g (Node (Area_put at bytes) ∷ acts) self.new) }
    {
        self.set_area(Span { at, len }, Origin::Daemon)
    }

    /// The bounce memory is kept in the area from now on.
    pub fn register(&mut self, kept: Kept, per_page: u64) -> Result<(), AllocError>
        requires small { kept.base + kept.size ≤ 2 ^ 32 }
        requires some { 0 < per_page }
        requires size { per_page ≤ 16 }
        ensures { (acts : List Act) → KeepsOrigins per_page acts self.old
            → OnOk result (KeepsOrigins per_page (Node (Registered kept.base kept.size) ∷ acts) self.new) }
    {
        self.adopt(kept, per_page)
    }

    /// The registration ends.
    pub fn deregister(&mut self, per_page: u64) -> Result<(), AllocError>
        requires some { 0 < per_page }
        requires size { per_page ≤ 16 }
        ensures { (acts : List Act) → KeepsOrigins per_page acts self.old →
            OnOk result (KeepsOrigins per_page (Node Deregistered ∷ acts) self.new) }
    {
        self.give_back(per_page)?;
        self.end()
    }

    /// The session ends, and with it the registration, if one stands.
    pub fn close(&mut self, per_page: u64) -> Result<(), AllocError>
        requires some { 0 < per_page }
        requires size { per_page ≤ 16 }
        ensures { (acts : List Act) → KeepsOrigins per_page acts self.old →
            OnOk result (KeepsOrigins per_page (registration_end (registration_of acts) ++ acts) self.new) }
    {
        if self.is_registered() {
            self.deregister(per_page)
        } else {
            Ok(())
        }
    }

    /// The origin of the byte that the daemon sees at an address, or none where it can't be accessed. There are
    /// `bounce` slots of bounce memory.
    pub fn shown(&self, at: u64, bounce: u64, per_page: u64) -> Option<Origin>
        requires some { 0 < per_page }
        requires size { per_page ≤ 16 }
        requires small { bounce ≤ 2 ^ 32 }
        ensures { (acts : List Act) → KeepsOrigins per_page acts self.now → result
            ≡ (if is_seen bounce per_page acts at then Some (shown_put per_page acts at).origin else None) }
    {
        if self.sees(at, bounce, per_page) {
            Some(self.origin(at))
        } else {
            None
        }
    }
}
