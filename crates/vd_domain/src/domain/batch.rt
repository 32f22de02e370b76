//! Several mappings, all of them or none.

ghost use Rattle.std.specs.Prelude.{◌≡◌, ◌≢◌, ◌+◌, ◌<◌, ◌≤◌, ◌^◌, ◌++◌, ◌==◌, ℕ, List, length, ◌↔◌, true, false, is_some, Some, None, IfOk, OnOk, OnErr};
ghost use Rattle.std.specs.List.{list_any};
ghost use Rattle.vd_pool.specs.Memory.{Grows};
ghost use Rattle.vd_iova.specs.Space.{Space};
ghost use Rattle.vd_bounce.specs.Frames.{Holds, Keeps};
ghost use Rattle.vd_model.specs.Setting.{Setting};
ghost use Rattle.vd_model.specs.Live.{maps};
ghost use Rattle.vd_model.specs.Place.{Slots, taken_slots};
ghost use Rattle.vd_model.specs.Acts.{Act, Streaming};
ghost use Rattle.vd_model.specs.RingTurns.{placed_mappings, map_acts};
ghost use Rattle.vd_domain.specs.Held.{Held, IsFit, Holding, AreTaken};
ghost use Rattle.vd_domain.specs.Handed.{AreOf, bytes_of};
ghost use Rattle.vd_domain.specs.Placing.{AreGiven, IsSeen, IsReady, with_mappings, streamings, entries_of, pages_met};
ghost use Rattle.vd_domain.specs.Stands.{Stands};

use crate::booking::{Booked, book};
use crate::domain::Domain;
use crate::numbered::Numbered;
use crate::pages::{Pages, show};
use crate::streaming::Bounced;
use crate::uses::Uses;
use vd_bounce::BounceMap;
use vd_iova::Iova;
use vd_model::{MapError, Want};
use vd_num::SLOT_SIZE;
use vd_pool::Pool;

/// Nothing is booked.
const NOTHING: Booked = Booked {
    number: 0,
    slot: 0,
    pages: Pages { first: 0, count: 0 },
};

impl Domain {
    ghost use Rattle.vd_domain.specs.Stands.{Stands};

    /// Maps ranges of buffers in order, all of them or none; `bytes` are the ranges one after another. It answers
    /// the first number, and the others follow it.
    pub fn map_all(
        &mut self,
        pool: &mut Pool,
        wants: &[Want],
        bytes: &[u8],
    ) -> Result<u64, MapError>
        requires holds { Holds self.old.bounce.frames pool.old }
        requires size { pool.old.per_page ≡ self.old.bounce.per_page }
        requires some { 0 < length wants.now }
        requires text { length bytes.now ≡ bytes_of wants.now }
        requires made { self.old.maps + length wants.now < 2 ^ 62 }
        ensures kept { Keeps self.old.bounce.frames self.new.bounce.frames pool.old pool.new }
        ensures ok { (x : Setting) (acts : List Act) (ms : List Streaming) → Stands x acts self.old pool.old →
            AreOf x.per_page acts wants.now bytes.now
            → placed_mappings x (taken_slots acts) (maps acts) wants.now ≡ Some ms →
            OnOk result (Stands x (map_acts ms ++ acts) self.new pool.new) }
        ensures place { (x : Setting) (acts : List Act) → Stands x acts self.old pool.old → IfOk result (λ n.
            (n ≡ maps acts) × (is_some (placed_mappings x (taken_slots acts) (maps acts) wants.now) ≡ true)) }
        ensures full { (x : Setting) (acts : List Act) → Stands x acts self.old pool.old → result ≡ Err MapError.NoSpace
            → placed_mappings x (taken_slots acts) (maps acts) wants.now ≡ None }
        ensures empty { result ≡ Err MapError.Empty ↔ (list_any (λ w. w.len == 0) wants.now ≡ true) }
        ensures err { (x : Setting) (acts : List Act) → Stands x acts self.old pool.old →
            OnErr result (Stands x acts self.new pool.new) }
        ensures same { OnErr result (self.new ≡ self.old) }
        ensures counts { (self.new.maps ≤ self.old.maps + length wants.now)
            × (self.new.made ≡ self.old.made) }
        ensures page { self.new.bounce.per_page ≡ self.old.bounce.per_page }
    {
        if has_empty(wants) {
            return Err(MapError::Empty);
        }
        let mut booked = match vec![in self.alloc; NOTHING; wants.len()] {
            Ok(booked) => booked,
            Err(_) => return Err(MapError::Memory),
        };
        let first = self.mappings.made();
        let per_page = self.bounce.per_page() as u64;
        let low = &mut self.low;
        match book_all(
            low,
            &mut self.mappings,
            pool,
            per_page,
            wants,
            &mut booked,
            0,
        ) {
            Ok(()) => {}
            Err(error) => return Err(error),
        }
        show_all(
            &mut self.bounce,
            &mut self.uses,
            pool,
            wants,
            &booked,
            bytes,
        );
        self.is_shown = true;
        Ok(first)
    }
}

/// Whether a want has no bytes.
fn has_empty(wants: &[Want]) -> bool
    ensures { result ≡ list_any (λ w. w.len == 0) wants.now }
{
    wants.iter().any(|want| want.len == 0)
}

/// Books the wants in order, all of them or none, and sees that the pool has `frames` frames and one for each
/// page that they meet.
fn book_all(
    low: &mut Iova,
    mappings: &mut Numbered<Bounced>,
    pool: &mut Pool,
    per_page: u64,
    wants: &[Want],
    booked: &mut [Booked],
    frames: u64,
) -> Result<(), MapError>
    requires each { length booked.old ≡ length wants.now }
    requires some { list_any (λ w. w.len == 0) wants.now ≡ false }
    requires size { 0 < per_page }
    requires made { mappings.old.made + length wants.now < 2 ^ 62 }
    requires end { low.old.«end» ≤ 65536 }
    ensures given { OnOk result (AreGiven per_page low.old mappings.old.made wants.now booked.new low.new) }
    ensures numbered { OnOk result (mappings.new
        ≡ record {
          entries = mappings.old.entries ++ entries_of wants.now booked.new;
          made = mappings.old.made + length wants.now;
        }) }
    ensures spare { OnOk result (frames + pages_met booked.new ≤ pool.new.spare) }
    ensures full { result ≡ Err MapError.NoSpace → (x : Setting) (holds : List Holding) (held : List Slots) →
        x.per_page ≡ low.old.first → x.bounce ≡ low.old.«end»
        → AreTaken low.old mappings.old.made holds → IsSeen low.old holds held →
        placed_mappings x held mappings.old.made wants.now ≡ None }
    ensures empty { result ≢ Err MapError.Empty }
    ensures grows { Grows pool.old pool.new }
    ensures err { OnErr result ((low.new ≡ low.old) × (mappings.new ≡ mappings.old)) }
{
    let (want, wants) = match wants.split_first() {
        Some(parts) => parts,
        None => return pool.reserve(frames).map_err(|_| MapError::Memory),
    };
    let (first, rest) = match booked.split_first_mut() {
        Some(parts) => parts,
        None => unreachable!(),
    };
    let given = match book(low, mappings, pool, per_page, *want) {
        Ok(given) => given,
        Err(e) => return Err(e),
    };
    *first = given;
    let booked = match frames.checked_add(given.pages.count as u64) {
        Some(frames) => book_all(low, mappings, pool, per_page, wants, rest, frames),
        None => Err(MapError::Memory),
    };
    if booked.is_err() {
        mappings.undo();
        low.give(given.slot);
    }
    booked
}

/// Gives the mappings their pages and their bytes, which stand one after another.
fn show_all(
    bounce: &mut BounceMap,
    uses: &mut Uses,
    pool: &mut Pool,
    wants: &[Want],
    booked: &[Booked],
    bytes: &[u8],
)
    requires holds { Holds bounce.old.frames pool.old }
    requires size { pool.old.per_page ≡ bounce.old.per_page }
    requires some { list_any (λ w. w.len == 0) wants.now ≡ false }
    requires text { length bytes.now ≡ bytes_of wants.now }
    requires ready { IsReady bounce.old uses.old wants.now booked.now }
    requires spare { pages_met booked.now ≤ pool.old.spare }
    ensures kept { Keeps bounce.old.frames bounce.new.frames pool.old pool.new }
    ensures page { bounce.new.per_page ≡ bounce.old.per_page }
    ensures fit { (h : Held) (low high after : Space) → h.bounce ≡ bounce.old → IsFit h low high uses.old →
        AreGiven h.bounce.per_page low h.maps wants.now booked.now after
        → IsFit (with_mappings h bounce.new (streamings wants.now booked.now)) after high uses.new }
    ensures stands { (h : Held) (low high after : Space) → h.bounce ≡ bounce.old → IsFit h low high uses.old →
        AreGiven h.bounce.per_page low h.maps wants.now booked.now after
        → (x : Setting) (acts : List Act) → Stands x acts h pool.old → AreOf x.per_page acts wants.now bytes.now
        → Stands x (map_acts (streamings wants.now booked.now) ++ acts)
        (with_mappings h bounce.new (streamings wants.now booked.now)) pool.new }
{
    let (want, wants) = match wants.split_first() {
        Some(parts) => parts,
        None => return,
    };
    let (given, booked) = match booked.split_first() {
        Some(parts) => parts,
        None => unreachable!(),
    };
    let (text, bytes) = bytes.split_at(want.len as usize);
    uses.enter(given.pages);
    show(
        bounce,
        pool,
        given.pages,
        want.dir,
        SLOT_SIZE * given.slot,
        text,
    );
    show_all(bounce, uses, pool, wants, booked, bytes);
}
