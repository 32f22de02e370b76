//! The steps on the guest's memory.

ghost use Rattle.std.specs.Prelude.{◌≡◌, ◌++◌, ℕ, List, IfOk, IfSome};
ghost use Rattle.vd_vhost_model.specs.GuestTable.{VhostAct};
ghost use Rattle.vd_vhost_model.specs.VhostTurns.{denied_answer, found_turn, guest_poke_turn, guest_peek_turn, guest_load_turn, guest_store_turn, guest_lookup_turn};
ghost use Rattle.vd_vhost.specs.Told.{Says, Tells, MayTell, TellsOrDenies, MayTellOrDeny};

use crate::bus::Bus;
use std::alloc::AllocError;
use vd_answers::Hears;
use vd_model::{Item, Region, Tag};
use vd_num::{Errno, Range};
use vd_vhost_model::Denied;

/// Tells a bus fault. The address at which a permission is missing is handed out.
fn tell_denied<T: Hears>(why: Denied, told: &mut T) -> Option<u64>
    requires { T.is_ready told.old }
    ensures says { Says (λ said. T.heard told.old said told.new) (told.new ≡ told.old) (denied_answer why) result }
    ensures quiet { IfSome result (λ _. told.new ≡ told.old) }
{
    match why {
        Denied::Bus { at } => {
            told.bus(at);
            None
        }
        Denied::Perm { at } => Some(at),
    }
}

/// Tells a region that was found.
fn tell_region<T: Hears>(region: &Region, told: &mut T)
    requires { T.is_ready told.old }
    ensures { T.heard told.old (found_turn region.now).answer told.new }
{
    told.fields(&[
        Item::Word(Tag::Offset),
        Item::Address(region.offset),
        Item::Word(Tag::Start),
        Item::Address(region.start),
        Item::Word(Tag::Last),
        Item::Address(region.last),
        Item::Word(Tag::Perm),
        Item::Number(u64::from(region.perm)),
    ]);
}

impl Bus {
    ghost use Rattle.vd_vhost.specs.After.{IsAfter};
    ghost use Rattle.vd_vhost.specs.Parts.{parts_of};

    /// Writes bytes of the memory.
    pub fn poke<T: Hears>(&mut self, offset: u64, bytes: &[u8], told: &mut T)
        requires { T.is_ready told.old }
        ensures { (size : ℕ) (done : List VhostAct) → IsAfter size done (parts_of self.old) →
            Tells (λ said. T.heard told.old said told.new) (guest_poke_turn size offset bytes.now)
            (λ acts. IsAfter size (acts ++ done) (parts_of self.new)) }
    {
        if !self.guest.has(offset, bytes.len() as u64) {
            told.refused(Errno::Inval);
            return;
        }
        self.guest.poke(offset, bytes);
        told.done();
    }

    /// Reads bytes of the memory.
    pub fn peek<T: Hears>(&self, offset: u64, len: u64, told: &mut T) -> Result<(), AllocError>
        requires { T.is_ready told.old }
        ensures { (size : ℕ) (done : List VhostAct) → IsAfter size done (parts_of self.now) →
            MayTell (λ said. T.heard told.old said told.new) (guest_peek_turn size done offset len)
            (λ acts. IsAfter size (acts ++ done) (parts_of self.now)) result }
    {
        if !self.guest.has(offset, len) {
            told.refused(Errno::Inval);
            return Ok(());
        }
        told.text(self.guest.peek(offset, len))
    }

    /// Reads through the table.
    pub fn load<T: Hears>(
        &mut self,
        at: u64,
        len: u64,
        told: &mut T,
    ) -> Result<Option<u64>, AllocError>
        requires { T.is_ready told.old }
        ensures line { (size : ℕ) (done : List VhostAct) → IsAfter size done (parts_of self.old) →
            MayTellOrDeny (λ said. T.heard told.old said told.new) (told.new ≡ told.old) (guest_load_turn done at len)
            (λ acts. IsAfter size (acts ++ done) (parts_of self.new)) result }
        ensures same { parts_of self.new ≡ parts_of self.old }
        ensures quiet { IfOk result (λ denied. IfSome denied (λ _. told.new ≡ told.old)) }
    {
        self.shown.clear();
        match self.guest.load(at, len, &mut self.shown)? {
            Some(why) => Ok(tell_denied(why, told)),
            None => {
                told.text(&self.shown)?;
                Ok(None)
            }
        }
    }

    /// Writes through the table.
    pub fn store<T: Hears>(&mut self, at: u64, bytes: &[u8], told: &mut T) -> Option<u64>
        requires { T.is_ready told.old }
        ensures line { (size : ℕ) (done : List VhostAct) → IsAfter size done (parts_of self.old) →
            TellsOrDenies (λ said. T.heard told.old said told.new) (told.new ≡ told.old) (guest_store_turn done at bytes.now)
            (λ acts. IsAfter size (acts ++ done) (parts_of self.new)) result }
        ensures quiet { IfSome result (λ _. told.new ≡ told.old) }
    {
        match self.guest.store(at, bytes) {
            Some(why) => tell_denied(why, told),
            None => {
                told.done();
                None
            }
        }
    }

    /// Finds the region of least start that overlaps the range.
    pub fn lookup<T: Hears>(&self, range: Range, told: &mut T)
        requires { T.is_ready told.old }
        ensures { (size : ℕ) (done : List VhostAct) → IsAfter size done (parts_of self.now) →
            Tells (λ said. T.heard told.old said told.new) (guest_lookup_turn done range.start range.last)
            (λ acts. IsAfter size (acts ++ done) (parts_of self.now)) }
    {
        if range.start > range.last {
            told.refused(Errno::Inval);
            return;
        }
        match self.guest.first(range) {
            Some(region) => tell_region(&region, told),
            None => told.refused(Errno::Inval),
        }
    }
}
