//! The steps that change the table or the time.

ghost use Rattle.std.specs.Prelude.{◌≡◌, ◌+◌, ◌++◌, ℕ, List, OnErr};
ghost use Rattle.vd_model.specs.Messages.{message_told};
ghost use Rattle.vd_vhost_model.specs.GuestTable.{VhostAct, messages_of};
ghost use Rattle.vd_vhost_model.specs.VhostTurns.{setmap_turn, tick_turn, guest_take_turn, clock_of};
ghost use Rattle.vd_vhost.specs.Told.{Tells, MayTell};
ghost use Rattle.vd_vhost.specs.After.{GuestAfter, has_failed, is_id};

use crate::bus::Bus;
use crate::messages::tell_end;
use std::alloc::{AllocError, Global};
use vd_answers::Hears;
use vd_guest::{Guest, Regions, table_of};
use vd_model::{Body, Item, Region, Tag, TakeAnswer};
use vd_msg::SendError;
use vd_num::{Errno, Range};

/// A table tells of all addresses.
const ALL_ADDRESSES: Body = Body::Iotlb {
    range: Range {
        start: 0,
        last: u64::MAX,
    },
};

/// The clock goes up to this second.
const CLOCK_END: u64 = 1 << 40;

/// Whether a message ended and failed.
fn has_failed(end: &TakeAnswer) -> bool
    ensures { result ≡ has_failed end.now }
{
    matches!(
        end,
        TakeAnswer::FailedByReply { .. } | TakeAnswer::FailedByTimeout { .. }
    )
}

/// Whether the id is that of the table that was set last.
fn is_latest(latest: Option<u32>, id: u32) -> bool
    ensures { result ≡ is_id latest id }
{
    latest.is_some_and(|k| k == id)
}

/// Empties the table where the message that ended had told of it and failed.
fn end_table(guest: &mut Guest, alloc: Global, latest: Option<u32>, id: u32, end: &TakeAnswer)
    ensures { (size : ℕ) (done : List VhostAct) → GuestAfter size done guest.old latest →
        GuestAfter size ((guest_take_turn id end.now).acts ++ done) guest.new latest }
{
    if has_failed(end) && is_latest(latest, id) {
        guest.set_table(Regions::new(alloc));
    }
}

impl Bus {
    ghost use Rattle.vd_vhost.specs.After.{IsAfter};
    ghost use Rattle.vd_vhost.specs.Parts.{parts_of};

    /// Sets the whole table, and tells the daemon of it.
    pub fn set_map<T: Hears>(&mut self, spans: &[Region], told: &mut T) -> Result<(), AllocError>
        requires { T.is_ready told.old }
        ensures line { (size : ℕ) (done : List VhostAct) → IsAfter size done (parts_of self.old) →
            MayTell (λ said. T.heard told.old said told.new) (setmap_turn size done spans.now)
            (λ acts. IsAfter size (acts ++ done) (parts_of self.new)) result }
        ensures err { OnErr result (parts_of self.new ≡ parts_of self.old) }
    {
        let Some(table) = table_of(self.alloc, spans, self.guest.size())? else {
            told.refused(Errno::Inval);
            return Ok(());
        };
        match self.messages.send(ALL_ADDRESSES, self.clock) {
            Ok(id) => {
                self.guest.set_table(table);
                self.latest = Some(id);
                told.fields(&[Item::Word(Tag::Id), Item::Number(u64::from(id))]);
            }
            Err(SendError::Broken) => told.refused(Errno::Io),
            Err(SendError::Ids) => told.refused(Errno::Nospc),
            Err(SendError::Memory) => return Err(AllocError),
        }
        Ok(())
    }

    /// Lets time pass.
    pub fn tick<T: Hears>(&mut self, seconds: u64, told: &mut T)
        requires { T.is_ready told.old }
        ensures { (size : ℕ) (done : List VhostAct) → IsAfter size done (parts_of self.old) →
            Tells (λ said. T.heard told.old said told.new) (tick_turn (clock_of (messages_of done) + seconds))
            (λ acts. IsAfter size (acts ++ done) (parts_of self.new)) }
    {
        match self.clock.checked_add(seconds) {
            Some(now) if now <= CLOCK_END => {
                self.clock = now;
                self.messages.tick(now);
                told.fields(&[Item::Number(now)]);
            }
            _ => told.refused(Errno::Inval),
        }
    }

    /// Takes the end of a message. Where it told of the present table and failed, the table becomes empty.
    pub fn take<T: Hears>(&mut self, id: u32, told: &mut T)
        requires { T.is_ready told.old }
        ensures { (size : ℕ) (done : List VhostAct) → IsAfter size done (parts_of self.old) →
            Tells (λ said. T.heard told.old said told.new) (guest_take_turn id (message_told (messages_of done) id))
            (λ acts. IsAfter size (acts ++ done) (parts_of self.new)) }
    {
        let end = self.messages.take(id);
        end_table(&mut self.guest, self.alloc, self.latest, id, &end);
        tell_end(id, end, told);
    }
}
