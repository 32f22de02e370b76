//! Streaming mappings: a range of a buffer of the driver, bounced through the pages of a device.

ghost use Rattle.std.specs.Prelude.{◌≡◌, ◌+◌, ◌-◌, ◌*◌, ◌/◌, ◌<◌, ◌≤◌, ◌^◌, ◌↔◌, ◌==◌, List, ◌∷◌, length, true, false, Some, None, IfSome, IfOk, OnOk, OnErr, IsErr};
ghost use Rattle.std.specs.List.{list_any};
ghost use Rattle.std.specs.Option.{option_map};
ghost use Rattle.vd_num.specs.Number.{pages_of};
ghost use Rattle.vd_bounce.specs.Frames.{Holds, Keeps};
ghost use Rattle.vd_model.specs.Setting.{Setting};
ghost use Rattle.vd_model.specs.Acts.{Act, Driver, Streaming, Mapped, Unmapped, Synced_device, Synced_cpu};
ghost use Rattle.vd_model.specs.Live.{maps, iova_of};
ghost use Rattle.vd_model.specs.Place.{place_of, taken_slots};
ghost use Rattle.vd_model.specs.Puts.{is_to_device, is_from_device, bus_bytes};
ghost use Rattle.vd_domain.specs.Held.{SameCounts, mapping_of};
ghost use Rattle.vd_domain.specs.Lists.{mapping_at, mappings_of};
ghost use Rattle.vd_domain.specs.Handed.{IsOf, streaming_of, map_info};

use crate::booking::book;
use crate::domain::{Domain, NotLive, SyncError};
use crate::pages::{pages_met, show};
use crate::streaming::Bounced;
use vd_model::{MapError, MapInfo, Mapping, Want};
use vd_num::{SLOT_SIZE, pages};
use vd_pool::Pool;

impl Domain {
    ghost use Rattle.vd_domain.specs.Stands.{Stands};

    /// Maps a range of a buffer, whose bytes these are.
    pub fn map(&mut self, pool: &mut Pool, want: Want, bytes: &[u8]) -> Result<Mapping, MapError>
        requires holds { Holds self.old.bounce.frames pool.old }
        requires size { pool.old.per_page ≡ self.old.bounce.per_page }
        requires text { length bytes.now ≡ want.len }
        requires made { self.old.maps < 2 ^ 62 }
        ensures kept { Keeps self.old.bounce.frames self.new.bounce.frames pool.old pool.new }
        ensures ok { (x : Setting) (acts : List Act) → Stands x acts self.old pool.old →
            IsOf x.per_page acts want bytes.now
            → IfOk result (λ m. Stands x (Driver (Mapped (streaming_of m want)) ∷ acts) self.new pool.new) }
        ensures place { (x : Setting) (acts : List Act) → Stands x acts self.old pool.old → IfOk result (λ m.
            (m.number ≡ maps acts) × (m.iova ≡ 4096 * (m.iova / 4096))
            × (place_of (taken_slots acts) (pages_of want.len) x.per_page x.bounce ≡ Some (m.iova / 4096))) }
        ensures full { (x : Setting) (acts : List Act) → Stands x acts self.old pool.old → result ≡ Err MapError.NoSpace
            → place_of (taken_slots acts) (pages_of want.len) x.per_page x.bounce ≡ None }
        ensures empty { result ≡ Err MapError.Empty ↔ (want.len ≡ 0) }
        ensures err { (x : Setting) (acts : List Act) → Stands x acts self.old pool.old →
            OnErr result (Stands x acts self.new pool.new) }
        ensures same { OnErr result (self.new ≡ self.old) }
        ensures counts { (self.new.maps ≤ self.old.maps + 1) × (self.new.made ≡ self.old.made) }
        ensures page { self.new.bounce.per_page ≡ self.old.bounce.per_page }
    {
        if want.len == 0 {
            return Err(MapError::Empty);
        }
        let per_page = self.bounce.per_page() as u64;
        let booked = match book(&mut self.low, &mut self.mappings, pool, per_page, want) {
            Ok(booked) => booked,
            Err(error) => return Err(error),
        };
        self.uses.enter(booked.pages);
        let iova = SLOT_SIZE * booked.slot;
        show(&mut self.bounce, pool, booked.pages, want.dir, iova, bytes);
        self.is_shown = true;
        Ok(Mapping {
            number: booked.number,
            iova,
        })
    }

    /// What is mapped under a number, or none where it isn't live.
    pub fn info(&self, number: u64) -> Option<MapInfo>
        ensures { result ≡ option_map map_info (mapping_of self.now number) }
    {
        match self.mapping(number) {
            Some(m) => Some(MapInfo {
                iova: SLOT_SIZE * m.slot,
                want: m.want,
            }),
            None => None,
        }
    }

    /// Whether a live mapping is of a buffer. It goes over the live mappings.
    pub fn maps_buffer(&self, buffer: u64) -> bool
        ensures { result ≡ list_any (λ m. m.want.buffer == buffer) self.now.live }
    {
        has_buffer(self.mappings.by_number(), buffer)
    }

    /// Ends a mapping, and fills the slice with its bytes where it comes from the device.
    pub fn unmap(&mut self, pool: &mut Pool, number: u64, out: &mut [u8]) -> Result<(), NotLive>
        requires holds { Holds self.old.bounce.frames pool.old }
        requires size { pool.old.per_page ≡ self.old.bounce.per_page }
        requires room { (m : Streaming) → mapping_of self.old number ≡ Some m → length out.old ≡ m.want.len }
        ensures kept { Keeps self.old.bounce.frames self.new.bounce.frames pool.old pool.new }
        ensures none { IsErr result ↔ (mapping_of self.old number ≡ None) }
        ensures ok { (x : Setting) (acts : List Act) (m : Streaming) → mapping_of self.old number ≡ Some m →
            Stands x acts self.old pool.old
            → Stands x (Driver (Unmapped m) ∷ acts) self.new pool.new }
        ensures given { (x : Setting) (acts : List Act) (m : Streaming) → mapping_of self.old number ≡ Some m →
            Stands x acts self.old pool.old
            → is_from_device m.want.dir ≡ true → out.new ≡ bus_bytes x.per_page acts (iova_of m) m.want.len }
        ensures left { (m : Streaming) → mapping_of self.old number ≡ Some m →
            is_from_device m.want.dir ≡ false → out.new ≡ out.old }
        ensures err { OnErr result ((self.new ≡ self.old) × (pool.new ≡ pool.old) × (out.new ≡ out.old)) }
        ensures counts { SameCounts self.old self.new }
    {
        let m = match self.mapping(number) {
            Some(m) => m,
            None => return Err(NotLive),
        };
        if m.want.dir.is_from_device() {
            self.bounce.get(pool, SLOT_SIZE * m.slot, out);
        }
        let per_page = self.bounce.per_page() as u64;
        self.uses
            .leave(pages_met(m.slot, pages(m.want.len), per_page));
        self.low.give(m.slot);
        self.mappings.remove(number);
        Ok(())
    }

    /// Copies a mapping's bytes to the device, as a map does.
    pub fn sync_device(
        &mut self,
        pool: &mut Pool,
        number: u64,
        bytes: &[u8],
    ) -> Result<(), SyncError>
        requires holds { Holds self.old.bounce.frames pool.old }
        requires size { pool.old.per_page ≡ self.old.bounce.per_page }
        requires text { (m : Streaming) → mapping_of self.old number ≡ Some m →
            length bytes.now ≡ m.want.len }
        ensures kept { Keeps self.old.bounce.frames self.new.bounce.frames pool.old pool.new }
        ensures not_live { result ≡ Err SyncError.NotLive ↔ (mapping_of self.old number ≡ None) }
        ensures wrong { (m : Streaming) → mapping_of self.old number ≡ Some m →
            result ≡ Err SyncError.WrongDir ↔ (is_to_device m.want.dir ≡ false) }
        ensures ok { (x : Setting) (acts : List Act) (m : Streaming) → mapping_of self.old number ≡ Some m →
            Stands x acts self.old pool.old
            → IsOf x.per_page acts m.want bytes.now →
            OnOk result (Stands x (Driver (Synced_device m) ∷ acts) self.new pool.new) }
        ensures err { OnErr result ((self.new ≡ self.old) × (pool.new ≡ pool.old)) }
        ensures counts { SameCounts self.old self.new }
    {
        let m = match self.mapping(number) {
            Some(m) => m,
            None => return Err(SyncError::NotLive),
        };
        if !m.want.dir.is_to_device() {
            return Err(SyncError::WrongDir);
        }
        self.bounce.put(pool, SLOT_SIZE * m.slot, bytes);
        Ok(())
    }

    /// Fills a slice with a mapping's bytes, as an unmap does.
    pub fn sync_cpu(
        &mut self,
        pool: &mut Pool,
        number: u64,
        out: &mut [u8],
    ) -> Result<(), SyncError>
        requires holds { Holds self.old.bounce.frames pool.old }
        requires size { pool.old.per_page ≡ self.old.bounce.per_page }
        requires room { (m : Streaming) → mapping_of self.old number ≡ Some m → length out.old ≡ m.want.len }
        ensures not_live { result ≡ Err SyncError.NotLive ↔ (mapping_of self.old number ≡ None) }
        ensures wrong { (m : Streaming) → mapping_of self.old number ≡ Some m →
            result ≡ Err SyncError.WrongDir ↔ (is_from_device m.want.dir ≡ false) }
        ensures ok { (x : Setting) (acts : List Act) (m : Streaming) → mapping_of self.old number ≡ Some m →
            Stands x acts self.old pool.old
            → Stands x (Driver (Synced_cpu m) ∷ acts) self.new pool.new }
        ensures given { (x : Setting) (acts : List Act) (m : Streaming) → mapping_of self.old number ≡ Some m →
            Stands x acts self.old pool.old
            → OnOk result (out.new ≡ bus_bytes x.per_page acts (iova_of m) m.want.len) }
        ensures left { OnErr result (out.new ≡ out.old) }
        ensures same { (self.new ≡ self.old) × (pool.new ≡ pool.old) }
    {
        let m = match self.mapping(number) {
            Some(m) => m,
            None => return Err(SyncError::NotLive),
        };
        if !m.want.dir.is_from_device() {
            return Err(SyncError::WrongDir);
        }
        self.bounce.get(pool, SLOT_SIZE * m.slot, out);
        Ok(())
    }

    /// What is kept of a live mapping.
    fn mapping(&self, number: u64) -> Option<Bounced>
        ensures live { mapping_of self.now number ≡ option_map (λ m. mapping_at (number, m)) result }
        ensures inside { IfSome result (λ m. m.slot + pages_of m.want.len ≤ 65536) }
    {
        self.mappings.get(number)
    }
}

/// Whether one of some mappings is of a buffer.
fn has_buffer(mappings: &[(u64, Bounced)], buffer: u64) -> bool
    ensures { result ≡ list_any (λ m. m.want.buffer == buffer) (mappings_of mappings.now) }
{
    for entry in mappings {
        if entry.1.want.buffer == buffer {
            return true;
        }
    }
    false
}
