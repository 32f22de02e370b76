//! The daemon's area, and its registration as bounce memory.

ghost use Rattle.std.specs.Prelude.{◌≡◌, ◌+◌, ◌-◌, ◌<◌, ◌≤◌, ◌↔◌, ◌⊎◌, ◌==◌, ◌&&◌, nat_le, if◌then◌else◌, IfSome, List, [], ◌∷◌, ◌++◌, length, is_some, true, false, Some, None, unwrap_or, OnOk, OnErr, MatchResult};
ghost use Rattle.std.specs.Option.{option_map};
ghost use Rattle.vd_pool.specs.Memory.{PoolMemory};
ghost use Rattle.vd_bounce.specs.Frames.{Holds, Keeps};
ghost use Rattle.vd_bounce.specs.Bounce as bounce;
ghost use Rattle.vd_model.specs.Setting.{Setting, bounce_size};
ghost use Rattle.vd_model.specs.Acts.{Act, Node, Closed, Area_made, Area_put, Registered, Deregistered};
ghost use Rattle.vd_model.specs.Live.{registration_of};
ghost use Rattle.vd_model.specs.Puts.{area_bytes};
ghost use Rattle.vd_model.specs.NodeTurns.{registration_end};
ghost use Rattle.vd_model.specs.AreaTurns.{may_register, area_start};
ghost use Rattle.vd_domain.specs.Held.{SameCounts};

use crate::access::end_of;
use crate::domain::Domain;
use vd_bounce::AreaError;
use vd_num::{Errno, SLOT_SIZE};
use vd_pool::Pool;

/// Where an area begins for its daemon.
pub const AREA_START: u64 = 0x1000_0000;

impl Domain {
    ghost use Rattle.vd_domain.specs.Stands.{Stands};

    /// Makes an area of zeros in place of the earlier one.
    pub fn new_area(&mut self, bytes: u64) -> Result<(), AreaError>
        ensures busy { result ≡ Err AreaError.Busy ↔ (is_some self.old.bounce.user ≡ true) }
        ensures ok { (x : Setting) (acts : List Act) (m : PoolMemory) → Stands x acts self.old m →
            OnOk result (Stands x (Node (Area_made bytes) ∷ acts) self.new m) }
        ensures err { OnErr result (self.new ≡ self.old) }
        ensures frames { self.new.bounce.frames ≡ self.old.bounce.frames }
        ensures counts { SameCounts self.old self.new }
    {
        self.bounce.new_area(bytes)
    }

    /// Ends the area, with the session.
    fn drop_area(&mut self)
        requires free { self.old.bounce.user ≡ None }
        ensures ok { (x : Setting) (acts : List Act) (m : PoolMemory) → Stands x acts self.old m →
            Stands x (Node Closed ∷ acts) self.new m }
        ensures none { (self.new.bounce.user ≡ None) × (self.new.bounce.area ≡ None) }
        ensures frames { self.new.bounce.frames ≡ self.old.bounce.frames }
        ensures counts { SameCounts self.old self.new }
    {
        self.bounce.drop_area();
    }

    /// How many bytes the area has, and none where there is no area.
    pub fn area_len(&self) -> Option<u64>
        ensures { result ≡ option_map length self.now.bounce.area }
    {
        self.bounce.area_len()
    }

    /// Writes the daemon's bytes into the area.
    pub fn area_put(&mut self, offset: u64, bytes: &[u8])
        requires { offset + length bytes.now ≤ length (unwrap_or self.old.bounce.area []) }
        ensures ok { (x : Setting) (acts : List Act) (m : PoolMemory) → Stands x acts self.old m →
            Stands x (Node (Area_put offset bytes.now) ∷ acts) self.new m }
        ensures frames { self.new.bounce.frames ≡ self.old.bounce.frames }
        ensures counts { SameCounts self.old self.new }
    {
        self.bounce.area_put(offset, bytes);
    }

    /// Fills a slice from the area.
    pub fn area_get(&self, offset: u64, out: &mut [u8])
        requires { offset + length out.old ≤ length (unwrap_or self.now.bounce.area []) }
        ensures { (x : Setting) (acts : List Act) (m : PoolMemory) → Stands x acts self.now m →
            out.new ≡ area_bytes x.per_page acts offset (length out.old) }
    {
        self.bounce.area_get(offset, out);
    }

    /// Registers the area from an address on as the bounce memory.
    pub fn reg_umem(
        &mut self,
        pool: &mut Pool,
        uaddr: u64,
        iova: u64,
        size: u64,
    ) -> Result<(), Errno>
        requires holds { Holds self.old.bounce.frames pool.old }
        requires size { pool.old.per_page ≡ self.old.bounce.per_page }
        ensures kept { Keeps self.old.bounce.frames self.new.bounce.frames pool.old pool.new }
        ensures ok { (x : Setting) (acts : List Act) → Stands x acts self.old pool.old → MatchResult result
            (λ _. (may_register x acts uaddr iova size ≡ true) × (registration_of acts ≡ None)
            × Stands x (Node (Registered (uaddr - area_start) (bounce_size x)) ∷ acts) self.new pool.new)
            (λ e. ((e ≡ Errno.Inval) × (may_register x acts uaddr iova size ≡ false))
            ⊎ ((e ≡ Errno.Exist) × (may_register x acts uaddr iova size ≡ true)
            × (is_some (registration_of acts) ≡ true))) }
        ensures err { OnErr result ((self.new ≡ self.old) × (pool.new ≡ pool.old)) }
        ensures counts { SameCounts self.old self.new }
    {
        let offset = match self.offset_of(uaddr, iova, size) {
            Some(offset) => offset,
            None => return Err(Errno::Inval),
        };
        if self.bounce.is_registered() {
            return Err(Errno::Exist);
        }
        self.bounce.adopt_user(pool, offset, self.uses.in_use());
        Ok(())
    }

    /// Ends the registration.
    pub fn dereg_umem(&mut self, pool: &mut Pool, iova: u64, size: u64) -> Result<(), Errno>
        requires holds { Holds self.old.bounce.frames pool.old }
        requires size { pool.old.per_page ≡ self.old.bounce.per_page }
        ensures kept { Keeps self.old.bounce.frames self.new.bounce.frames pool.old pool.new }
        ensures ok { (x : Setting) (acts : List Act) → Stands x acts self.old pool.old → MatchResult result
            (λ _. (is_some (registration_of acts) ≡ true) × (iova ≡ 0) × (size ≡ bounce_size x)
            × Stands x (Node Deregistered ∷ acts) self.new pool.new)
            (λ e. ((e ≡ Errno.Noent) × (registration_of acts ≡ None))
            ⊎ ((e ≡ Errno.Inval) × (is_some (registration_of acts) ≡ true)
            × (((iova == 0) && (size == bounce_size x)) ≡ false))) }
        ensures err { OnErr result ((self.new ≡ self.old) × (pool.new ≡ pool.old)) }
        ensures counts { SameCounts self.old self.new }
    {
        if !self.bounce.is_registered() {
            return Err(Errno::Noent);
        }
        if iova != 0 || size != end_of(&self.bounce) {
            return Err(Errno::Inval);
        }
        self.release(pool);
        Ok(())
    }

    /// Ends the session: the registration, where one stands, and then the area.
    pub fn end_session(&mut self, pool: &mut Pool)
        requires holds { Holds self.old.bounce.frames pool.old }
        requires size { pool.old.per_page ≡ self.old.bounce.per_page }
        ensures kept { Keeps self.old.bounce.frames self.new.bounce.frames pool.old pool.new }
        ensures ok { (x : Setting) (acts : List Act) → Stands x acts self.old pool.old
            → Stands x (Node Closed ∷ registration_end (registration_of acts) ++ acts) self.new pool.new }
        ensures none { (self.new.bounce.user ≡ None) × (self.new.bounce.area ≡ None) }
        ensures counts { SameCounts self.old self.new }
    {
        if self.bounce.is_registered() {
            self.release(pool);
        }
        self.drop_area();
    }

    /// Ends the registration that stands.
    fn release(&mut self, pool: &mut Pool)
        requires holds { Holds self.old.bounce.frames pool.old }
        requires size { pool.old.per_page ≡ self.old.bounce.per_page }
        requires registered { is_some self.old.bounce.user ≡ true }
        ensures kept { Keeps self.old.bounce.frames self.new.bounce.frames pool.old pool.new }
        ensures ok { (x : Setting) (acts : List Act) → Stands x acts self.old pool.old →
            Stands x (Node Deregistered ∷ acts) self.new pool.new }
        ensures free { self.new.bounce.user ≡ None }
        ensures counts { SameCounts self.old self.new }
    {
        self.bounce.release_user(pool, self.uses.in_use());
    }

    /// Where in the area the bounce memory begins, if it may be kept there from this address on.
    fn offset_of(&self, uaddr: u64, iova: u64, size: u64) -> Option<u64>
        ensures ok { (x : Setting) (acts : List Act) (m : PoolMemory) → Stands x acts self.now m
            → result ≡ (if may_register x acts uaddr iova size then Some (uaddr - area_start) else None) }
        ensures room { IfSome result (λ o. (is_some self.now.bounce.area ≡ true)
            × (o + bounce.bounce_len self.now.bounce ≤ length (unwrap_or self.now.bounce.area []))) }
    {
        let page = SLOT_SIZE * self.bounce.per_page() as u64;
        if !self.is_shown || iova != 0 || size != end_of(&self.bounce) || uaddr % page != 0 {
            return None;
        }
        offset_in(self.bounce.area_len().unwrap_or(0), uaddr, size)
    }
}

/// Where some bytes from an address on begin in an area of `len` bytes, or none where they don't lie in it.
fn offset_in(len: u64, uaddr: u64, size: u64) -> Option<u64>
    ensures { result ≡ (if nat_le area_start uaddr
        && nat_le (uaddr + size) (area_start + len) then Some (uaddr - area_start) else None) }
{
    if uaddr < AREA_START {
        return None;
    }
    let offset = uaddr - AREA_START;
    if size <= len && offset <= len - size {
        Some(offset)
    } else {
        None
    }
}
