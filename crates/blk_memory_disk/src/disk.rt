//! A disk in memory, which a crash may stop.

ghost use Rattle.std.specs.Prelude.{◌≡◌, ◌≢◌, ◌/◌, ◌*◌, ◌<◌, ◌↔◌, ℕ, List, [], Result, IfOk, OnOk, OnErr, IsErr, IsTrue, length, replicate, true};
ghost use Rattle.vd_io.specs.Told.{HasCause, Rose};
ghost use Rattle.vd_io.specs.Faults.{is_to_fail, after_call, first_call};
ghost use Rattle.vd_io.specs.Sectors.{IsSpan};
ghost use Rattle.blk_disk.specs.Contents.{Has, AreWhole, IsEither, joined};
ghost use Rattle.blk_disk.specs.Moments.{Lie, IsListedWrite, AreSingle};
ghost use Rattle.blk_memory_disk.specs.Stored.{content_at, list_at, overwritten, settled};
ghost use Rattle.blk_memory_disk.specs.Passing.{DiskState, after, unchanged, clock_of, Passes, stays, goes_on};

use crate::calls::CallCount;
use crate::store::Store;
use blk_disk::Disk;
use std::alloc::{AllocError, Global};
use std::marker::Model;
use vd_io::Failed;
use vd_num::Lines;

/// A disk in memory. Beside each sector's present content it keeps older ones, which a crash may leave.
#[derive(Drop)]
pub struct MemDisk {
    store: Store,
    calls: CallCount,
}

impl Model for MemDisk {
    ghost use Rattle.blk_memory_disk.specs.Passing.{DiskState};

    ghost Value = { DiskState };

    ghost view = { λ d. record { stored = d.store; calls = d.calls } };
}

impl MemDisk {
    /// A disk of so many sectors of zeros, which keeps at most so many contents beside the present ones: a write that
    /// finds no room makes its bytes all that a crash may leave of the sector. `fails` lists the calls that are to fail,
    /// counted from 0; `sectors` can't fail and isn't counted.
    pub fn new(alloc: Global, sectors: u64, room: u64, fails: Lines) -> Result<MemDisk, AllocError>
        ensures stored { IfOk result (λ d. d.stored ≡ record {
          sectors = sectors;
          bytes = replicate (512 * sectors) 0;
          older = [];
          room = room;
        }) }
        ensures calls { IfOk result (λ d. d.calls ≡ first_call fails) }
    {
        Ok(MemDisk {
            store: Store::new(alloc, sectors, room)?,
            calls: CallCount::new(fails),
        })
    }

    /// The present bytes of all sectors.
    pub fn as_slice(&self) -> &[u8]
        ensures bytes { result.now ≡ self.now.stored.bytes }
        ensures whole { length result.now ≡ 512 * self.now.stored.sectors }
    {
        self.store.as_slice()
    }

    /// What a crash leaves: of each sector one content of its list, which `pick` chooses.
    pub fn crash(mut self, pick: u64) -> MemDisk
        ensures left { (s : ℕ) → s < self.stored.sectors →
            Has (content_at result.stored.bytes s) (list_at self.stored s) }
        ensures alone { result.stored.older ≡ [] }
        ensures size { result.stored.sectors ≡ self.stored.sectors }
        ensures room { result.stored.room ≡ self.stored.room }
        ensures calls { result.calls ≡ self.calls }
    {
        self.store.crash(pick);
        self
    }
}

impl Disk for MemDisk {
    ghost tells = { true };

    ghost size = { λ d. d.stored.sectors };

    ghost present = { λ d s. content_at d.stored.bytes s };

    ghost may_leave = { λ d s. list_at d.stored s };

    ghost clock = { λ d. clock_of d.calls };

    ghost faults = { λ d. d.calls.failed };

    ghost through = { λ map a b. Passes map a b };

    fn sectors(&self) -> u64 {
        self.store.sectors()
    }

    fn read(&mut self, sector: u64, into: &mut [u8]) -> Result<(), Failed>
        requires { IsSpan self.old.stored.sectors sector (length into.old) }
        ensures read { OnOk result
            (into.new ≡ joined (content_at self.old.stored.bytes) sector (length into.old / 512)) }
        ensures kept { (s : ℕ) → content_at self.new.stored.bytes s ≡ content_at self.old.stored.bytes s }
        ensures lists { (s : ℕ) → list_at self.new.stored s ≡ list_at self.old.stored s }
        ensures moments { (map : ℕ → List (List ℕ)) →
            Lie map (list_at self.old.stored) → Lie map (list_at self.new.stored) → Passes map self.old self.new }
        ensures size { self.new.stored.sectors ≡ self.old.stored.sectors }
        ensures clock { Rose (clock_of self.old.calls) (clock_of self.new.calls) }
        ensures cause { HasCause self.old.calls.failed self.new.calls.failed result }

        // It fails exactly where the call's number is listed. Nothing but the count changes.
        ensures failed { IsErr result ↔ IsTrue (is_to_fail self.old.calls) }
        ensures after { self.new ≡ after unchanged self.old }
    {
        if self.calls.add() {
            return Err(Failed);
        }
        self.store.read(sector, into);
        Ok(())
    }

    fn write(&mut self, sector: u64, bytes: &[u8]) -> Result<(), Failed>
        requires inside { IsSpan self.old.stored.sectors sector (length bytes.now) }
        requires one { length bytes.now ≡ 512 }
        ensures written { OnOk result (content_at self.new.stored.bytes sector ≡ bytes.now) }
        ensures either { IsEither sector bytes.now (content_at self.old.stored.bytes)
            (content_at self.new.stored.bytes) }
        ensures others { (s : ℕ) → s ≢ sector →
            content_at self.new.stored.bytes s ≡ content_at self.old.stored.bytes s }
        ensures lists { IsListedWrite sector bytes.now (list_at self.old.stored) (list_at self.new.stored) }
        ensures listed { Has (content_at self.new.stored.bytes sector) (list_at self.new.stored sector) }
        ensures moments { (map : ℕ → List (List ℕ)) →
            Lie map (list_at self.old.stored) → Lie map (list_at self.new.stored) → Passes map self.old self.new }
        ensures size { self.new.stored.sectors ≡ self.old.stored.sectors }
        ensures clock { Rose (clock_of self.old.calls) (clock_of self.new.calls) }
        ensures cause { HasCause self.old.calls.failed self.new.calls.failed result }

        // It fails exactly where the call's number is listed, and then nothing but the count changes.
        ensures failed { IsErr result ↔ IsTrue (is_to_fail self.old.calls) }
        ensures after { self.new ≡ after (overwritten sector bytes.now) self.old }
    {
        if self.calls.add() {
            return Err(Failed);
        }
        self.store.write(sector, bytes);
        Ok(())
    }

    fn sync(&mut self) -> Result<(), Failed>
        ensures kept { (s : ℕ) → content_at self.new.stored.bytes s ≡ content_at self.old.stored.bytes s }
        ensures synced { OnOk result (AreSingle (content_at self.new.stored.bytes) (list_at self.new.stored)) }
        ensures lists { OnErr result ((s : ℕ) → list_at self.new.stored s ≡ list_at self.old.stored s) }
        ensures moments { (map : ℕ → List (List ℕ)) →
            Lie map (list_at self.old.stored) → Lie map (list_at self.new.stored) → Passes map self.old self.new }
        ensures size { self.new.stored.sectors ≡ self.old.stored.sectors }
        ensures clock { Rose (clock_of self.old.calls) (clock_of self.new.calls) }
        ensures cause { HasCause self.old.calls.failed self.new.calls.failed result }

        // It fails exactly where the call's number is listed, and then nothing but the count changes.
        ensures failed { IsErr result ↔ IsTrue (is_to_fail self.old.calls) }
        ensures after { self.new ≡ after settled self.old }
    {
        if self.calls.add() {
            return Err(Failed);
        }
        self.store.settle();
        Ok(())
    }

    ghost stays = { stays };

    ghost goes_on = { goes_on };
}
