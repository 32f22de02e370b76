//! A ring on its driver's side.
ghost use Rattle.std.specs.Prelude.{◌≡◌, ◌≢◌, ◌+◌, ◌*◌, ◌<◌, ◌≤◌, ◌↔◌, ◌^◌, if◌then◌else◌, [], length, take, slice_index, slice_set, Some, None, Err, IfOk, IfSome, OnOk, OnErr, true, false};
ghost use Rattle.std.specs.Option.{ForSome};
ghost use Rattle.vr_split.specs.Mem.{IsUnchanged, Becomes};
ghost use Rattle.vr_split.specs.Reach.{TableInReach, RingInReach, KeepsReach};
ghost use Rattle.vr_driver.specs.Side.{side_of, unowned_descriptors, next_head, with_descriptors_taken, with_chain, all_published, is_waiting};
ghost use Rattle.vr_driver.specs.Driver.{with_descriptor, with_descriptors, with_parts, with_table, with_index, is_kick_asked, is_kick_needed, next_completion, side_after, with_answer};
ghost use Rattle.vr_driver.specs.declared.ring.AddError.TheVariants.{Full, TooLong};

use crate::completion::{Completion, UsedError};
use crate::free::{count_free, release, reserve};
use crate::table::{write_chain, write_descriptor};
use bitflags::Flags;
use std::alloc::{AllocError, Global};
use std::marker::Model;
use vd_model::{Descriptor, Part, RingPlace};
use vd_num::{DescFlags, get32};
use vr_split::fields::{
    available_event, available_index, available_slot, used_element, used_event, used_flags,
    used_index,
};
use vr_split::reach::{load_in_reach, load16_in_reach, store16_in_reach};
use vr_split::{Mem, UsedFlags, need_event};

/// Why a chain wasn't added: it needs more descriptors than are free, or than the ring has.
#[derive(Clone, Copy, Debug, PartialEq, Eq)]
pub enum AddError {
    Full,
    TooLong,
}

/// What was published: the available index, and whether the device is to be kicked.
#[derive(Clone, Copy, Debug, PartialEq, Eq)]
pub struct Published {
    pub idx: u16,
    pub kick: bool,
}

/// The driver's side of a ring. For each descriptor it has the head of the chain that holds it, and whether the chain
/// with that head was published.
#[derive(Drop)]
pub struct DriverRing {
    place: RingPlace,
    owners: Vec<Option<u16>>,
    announced: Vec<bool>,
    picked: Vec<u16>,
    added: u16,
    published: u16,
    reclaimed: u16,
}

impl Model for DriverRing {
    ghost use Rattle.std.specs.Prelude.{◌≡◌, ◌<◌, ◌≤◌, vec_len};
    ghost use Rattle.vr_driver.specs.Side.{DriverSide};

    ghost Value = { DriverSide };

    ghost view = { λ r. record {
      place = r.place;
      owners = r.owners.items;
      announced = r.announced.items;
      added = r.added;
      published = r.published;
      reclaimed = r.reclaimed;
    } };

    ghost invariant = { λ r. (vec_len r.owners ≡ r.place.size) × (vec_len r.announced ≡ r.place.size)
        × (vec_len r.picked ≡ r.place.size) × (0 < r.place.size) × (r.place.size ≤ 32768) };
}

/// Whether the device asks for a kick when the available index went from `old` to `new` (virtio 1.2, section 2.7.10).
fn is_kick_asked<M: Mem>(
    mem: &mut M,
    place: &RingPlace,
    event_idx: bool,
    new: u16,
    old: u16,
) -> bool
    requires { RingInReach (M.told mem.old) (M.span mem.old) place.now }
    ensures kick { ForSome (M.told mem.old) (λ m. result ≡ is_kick_asked m place.now event_idx new old) }
    ensures memory { IsUnchanged M.told M.span M.keeps mem.old mem.new }
{
    if event_idx {
        let event = load16_in_reach(mem, available_event(place));
        return need_event(event, new, old);
    }
    let flags = load16_in_reach(mem, used_flags(place));
    !UsedFlags::from_bits_retain(flags).contains(UsedFlags::NO_NOTIFY)
}

impl DriverRing {
    /// The driver's side of a ring to which nothing was added.
    pub fn new(alloc: Global, place: RingPlace) -> Result<DriverRing, AllocError>
        requires some { 0 < place.size }
        requires small { place.size ≤ 32768 }
        ensures { IfOk result (λ ring. ring ≡ side_of place) }
    {
        let size = place.size as usize;
        Ok(DriverRing {
            place,
            owners: vec![in alloc; None; size]?,
            announced: vec![in alloc; false; size]?,
            picked: vec![in alloc; 0; size]?,
            added: 0,
            published: 0,
            reclaimed: 0,
        })
    }

    /// Where the ring is.
    pub fn place(&self) -> RingPlace
        ensures { result ≡ self.now.place }
    {
        self.place
    }

    /// Takes the ring to be at another place, of the same size.
    pub fn set_place(&mut self, place: RingPlace)
        requires { place.size ≡ self.old.place.size }
        ensures { self.new ≡ record self.old { place = place } }
    {
        self.place = place;
    }

    /// How many descriptors are free.
    pub fn count_free(&self) -> usize
        ensures free { result ≡ length (unowned_descriptors self.now) }
        ensures few { result ≤ self.now.place.size }
    {
        count_free(&self.owners)
    }

    /// Puts parts into the least free descriptors, and answers the head of the chain.
    fn place_chain<M: Mem>(&mut self, mem: &mut M, parts: &[Part]) -> u16
        requires in_reach { TableInReach (M.told mem.old) (M.span mem.old) self.old.place }
        requires some { 0 < length parts.now }
        requires few { length parts.now ≤ self.old.place.size }
        requires enough { length parts.now ≤ length (unowned_descriptors self.old) }
        ensures head { result ≡ next_head self.old (length parts.now) }
        ensures side { self.new ≡ with_descriptors_taken self.old (length parts.now) }
        ensures written { Becomes M.told mem.old mem.new (λ m. with_descriptors m self.old parts.now) }
        ensures memory { KeepsReach M.told M.span M.keeps mem.old mem.new }
    {
        let n = parts.len();
        let head = reserve(&mut self.owners, &mut self.announced, &mut self.picked, n);
        write_chain(mem, &self.place, parts, &self.picked[..n]);
        head
    }

    /// Puts the descriptor of an indirect table into the least free descriptor, and answers that one.
    fn place_table<M: Mem>(&mut self, mem: &mut M, d: &Descriptor) -> u16
        requires in_reach { TableInReach (M.told mem.old) (M.span mem.old) self.old.place }
        requires enough { 0 < length (unowned_descriptors self.old) }
        ensures head { result ≡ next_head self.old 1 }
        ensures side { self.new ≡ with_descriptors_taken self.old 1 }
        ensures written { Becomes M.told mem.old mem.new
            (λ m. with_descriptor m self.old.place result d.now) }
        ensures memory { KeepsReach M.told M.span M.keeps mem.old mem.new }
    {
        let mut picked = [0; 1];
        let head = reserve(&mut self.owners, &mut self.announced, &mut picked, 1);
        write_descriptor(mem, &self.place, picked[0], d);
        head
    }

    /// Puts a chain into the least free descriptors and its head into the available ring, and answers the head.
    pub fn add<M: Mem>(&mut self, mem: &mut M, parts: &[Part]) -> Result<u16, AddError>
        requires in_reach { RingInReach (M.told mem.old) (M.span mem.old) self.old.place }
        requires some { 0 < length parts.now }

        ensures too_long { (result ≡ Err TooLong) ↔ (self.old.place.size < length parts.now) }
        ensures full { (result ≡ Err Full) ↔ ((length parts.now ≤ self.old.place.size)
            × (length (unowned_descriptors self.old) < length parts.now)) }
        ensures head { IfOk result (λ head. head ≡ next_head self.old (length parts.now)) }
        ensures state { OnOk result (self.new ≡ with_chain self.old (length parts.now)) }
        ensures written { OnOk result (Becomes M.told mem.old mem.new
            (λ m. with_parts m self.old parts.now)) }

        // A refusal changes nothing.
        ensures err { OnErr result (self.new ≡ self.old) }
        ensures err_told { OnErr result (M.told mem.new ≡ M.told mem.old) }

        // The ring is in reach still, and so is all that was.
        ensures in_reach { RingInReach (M.told mem.new) (M.span mem.new) self.new.place }
        ensures memory { KeepsReach M.told M.span M.keeps mem.old mem.new }
    {
        let n = parts.len();
        if n > self.place.size as usize {
            return Err(AddError::TooLong);
        }
        if n > count_free(&self.owners) {
            return Err(AddError::Full);
        }
        let head = self.place_chain(mem, parts);
        store16_in_reach(mem, available_slot(&self.place, self.added), head);
        self.added = self.added.wrapping_add(1);
        Ok(head)
    }

    /// Puts a descriptor of an indirect table of `count` descriptors into the least free descriptor and its index into
    /// the available ring, and answers that index (virtio 1.2, section 2.7.5.3). It is never too long.
    pub fn add_indirect<M: Mem>(
        &mut self,
        mem: &mut M,
        table: u64,
        count: u16,
    ) -> Result<u16, AddError>
        requires in_reach { RingInReach (M.told mem.old) (M.span mem.old) self.old.place }
        requires some { 0 < count }

        ensures too_long { result ≢ Err TooLong }
        ensures full { (result ≡ Err Full) ↔ (unowned_descriptors self.old ≡ []) }
        ensures head { IfOk result (λ head. head ≡ next_head self.old 1) }
        ensures state { OnOk result (self.new ≡ with_chain self.old 1) }
        ensures written { OnOk result (Becomes M.told mem.old mem.new
            (λ m. with_table m self.old table count)) }

        // A refusal changes nothing.
        ensures err { OnErr result (self.new ≡ self.old) }
        ensures err_told { OnErr result (M.told mem.new ≡ M.told mem.old) }

        // The ring is in reach still, and so is all that was.
        ensures in_reach { RingInReach (M.told mem.new) (M.span mem.new) self.new.place }
        ensures memory { KeepsReach M.told M.span M.keeps mem.old mem.new }
    {
        if count_free(&self.owners) == 0 {
            return Err(AddError::Full);
        }
        let d = Descriptor {
            at: table,
            len: 16 * count as u32,
            flags: DescFlags::INDIRECT.bits(),
            next: 0,
        };
        let head = self.place_table(mem, &d);
        store16_in_reach(mem, available_slot(&self.place, self.added), head);
        self.added = self.added.wrapping_add(1);
        Ok(head)
    }

    /// Lets the device see all chains that were added, and tells whether it is to be kicked.
    pub fn publish<M: Mem>(&mut self, mem: &mut M, event_idx: bool) -> Published
        requires { RingInReach (M.told mem.old) (M.span mem.old) self.old.place }

        ensures idx { result.idx ≡ self.old.added }
        ensures kick { ForSome (M.told mem.new) (λ m. result.kick ≡ is_kick_needed m self.old event_idx) }
        ensures state { self.new ≡ all_published self.old }
        ensures written { Becomes M.told mem.old mem.new (λ m. with_index m self.old) }

        // The ring is in reach still, and so is all that was.
        ensures in_reach { RingInReach (M.told mem.new) (M.span mem.new) self.new.place }
        ensures memory { KeepsReach M.told M.span M.keeps mem.old mem.new }
    {
        let idx = self.added;
        let old = self.published;
        store16_in_reach(mem, available_index(&self.place), idx);
        self.announced.fill(true);
        self.published = idx;
        let kick = idx != old && is_kick_asked(mem, &self.place, event_idx, idx, old);
        Published { idx, kick }
    }

    /// The head that an id of a used element names, if it is that of a published chain that isn't reclaimed.
    fn waiting_head(&self, id: u32) -> Option<u16>
        ensures { result ≡ (if is_waiting self.now id then Some id else None) }
    {
        let head = self.owners.get(id as usize).copied()??;
        if head as u32 == id && self.announced[id as usize] {
            Some(head)
        } else {
            None
        }
    }

    /// The next completion, which isn't taken.
    fn completion<M: Mem>(&self, mem: &mut M) -> Result<Option<Completion>, UsedError>
        requires { RingInReach (M.told mem.old) (M.span mem.old) self.now.place }
        ensures answer { ForSome (M.told mem.old) (λ m. result ≡ next_completion m self.now) }
        ensures waiting { IfOk result (λ found. IfSome found (λ done. is_waiting self.now done.head ≡ true)) }
        ensures memory { IsUnchanged M.told M.span M.keeps mem.old mem.new }
    {
        let used = load16_in_reach(mem, used_index(&self.place));
        if used == self.reclaimed {
            return Ok(None);
        }
        if used.wrapping_sub(self.reclaimed) > self.published.wrapping_sub(self.reclaimed) {
            return Err(UsedError::TooFarAhead {
                used,
                published: self.published,
            });
        }
        let mut element = [0; 8];
        load_in_reach(mem, used_element(&self.place, self.reclaimed), &mut element);
        let id = get32(&element, 0);
        let len = get32(&element, 4);
        match self.waiting_head(id) {
            Some(head) => Ok(Some(Completion { head, len })),
            None => Err(UsedError::BadId { id }),
        }
    }

    /// Takes back the next used chain, if the device has used one, and frees its descriptors. With `event_idx` it asks
    /// to be told of its next used index.
    pub fn reclaim<M: Mem>(
        &mut self,
        mem: &mut M,
        event_idx: bool,
    ) -> Result<Option<Completion>, UsedError>
        requires { RingInReach (M.told mem.old) (M.span mem.old) self.old.place }

        ensures answer { ForSome (M.told mem.old) (λ m. result ≡ next_completion m self.old) }
        ensures waiting { IfOk result (λ found. IfSome found (λ done. is_waiting self.old done.head ≡ true)) }
        ensures state { self.new ≡ side_after self.old result }
        ensures written { Becomes M.told mem.old mem.new (λ m. with_answer m self.old event_idx result) }

        // The ring is in reach still, and so is all that was.
        ensures in_reach { RingInReach (M.told mem.new) (M.span mem.new) self.new.place }
        ensures memory { KeepsReach M.told M.span M.keeps mem.old mem.new }
    {
        let Some(done) = self.completion(mem)? else {
            return Ok(None);
        };
        release(&mut self.owners, done.head);
        self.reclaimed = self.reclaimed.wrapping_add(1);
        if event_idx {
            store16_in_reach(mem, used_event(&self.place), self.reclaimed);
        }
        Ok(Some(done))
    }
}
