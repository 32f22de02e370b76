//! Images of sectors.

ghost use Rattle.std.specs.Prelude.{◌≡◌, ◌≤◌, ◌*◌, ◌↔◌, ℕ, List, Option, Some, Result, IfOk, IsErr, IsTrue, OnOk, OnErr, length, replicate};
ghost use Rattle.vd_io.specs.Told.{HasCause, Rose};
ghost use Rattle.vd_io.specs.Sectors.{IsSpan, IsRead, IsWritten};
ghost use Rattle.vd_io.specs.Faults.{Calls, is_to_fail, after_call, first_call};
ghost use Rattle.vd_io.specs.Memory.{Medium};

use crate::Failed;
use crate::faults::Faults;
use std::alloc::{AllocError, Global};
use std::marker::Model;
use vd_num::Lines;

/// The bytes of a sector.
pub const SECTOR_SIZE: u64 = 512;

/// A plain image of sectors of 512 bytes.
pub trait Image {
    // Its bytes, if it tells them.
    ghost content: { Self → Option (List ℕ) };

    // How many sectors it has.
    ghost size: { Self → ℕ };

    // How often it failed.
    ghost faults: { Self → ℕ };

    // How often it was flushed.
    ghost flushes: { Self → ℕ };

    /// The number of its sectors, which never changes.
    fn sectors(&self) -> u64
        ensures size { result ≡ size self.now }
        ensures told { (bytes : List ℕ) → content self.now ≡ Some bytes → length bytes ≡ 512 * result };

    /// Reads whole sectors from this one on.
    fn read_at(&mut self, sector: u64, into: &mut [u8]) -> Result<(), Failed>
        requires { IsSpan (size self.old) sector (length into.old) }
        ensures read { OnOk result (IsRead sector into.new (content self.old)) }
        ensures kept { content self.new ≡ content self.old }
        ensures size { size self.new ≡ size self.old }
        ensures flushes { flushes self.new ≡ flushes self.old }
        ensures cause { HasCause (faults self.old) (faults self.new) result };

    /// Replaces whole sectors from this one on.
    fn write_at(&mut self, sector: u64, bytes: &[u8]) -> Result<(), Failed>
        requires { IsSpan (size self.old) sector (length bytes.now) }
        ensures written { OnOk result (IsWritten sector bytes.now (content self.old) (content self.new)) }
        ensures kept { OnErr result (content self.new ≡ content self.old) }
        ensures size { size self.new ≡ size self.old }
        ensures flushes { flushes self.new ≡ flushes self.old }
        ensures cause { HasCause (faults self.old) (faults self.new) result };

    /// Makes what was written stay.
    fn flush(&mut self) -> Result<(), Failed>
        ensures kept { content self.new ≡ content self.old }
        ensures size { size self.new ≡ size self.old }
        ensures never_falls { flushes self.old ≤ flushes self.new }
        ensures flushed { OnOk result (Rose (flushes self.old) (flushes self.new)) }
        ensures cause { HasCause (faults self.old) (faults self.new) result };
}

/// An image in memory, of zeros at first.
#[derive(Drop)]
pub struct MemImage {
    bytes: Vec<u8>,
    sectors: u64,
    flushes: u64,
    faults: Faults,
}

impl Model for MemImage {
    ghost use Rattle.std.specs.Prelude.{◌≡◌, ◌<◌, ◌*◌, ◌^◌, length};
    ghost use Rattle.vd_io.specs.Memory.{Medium};

    ghost Value = { Medium };

    ghost view = { λ i. record { sectors = i.sectors; bytes = i.bytes.items; flushes = i.flushes; calls = i.faults } };

    ghost invariant = { λ i. (length i.bytes.items ≡ 512 * i.sectors) × (512 * i.sectors < 2 ^ 64) };
}

impl MemImage {
    /// An image of so many sectors. `fails` lists the calls that are to fail, counted from 0;
    /// `sectors` can't fail and isn't counted.
    pub fn new(alloc: Global, sectors: u64, fails: Lines) -> Result<MemImage, AllocError>
        ensures { IfOk result (λ i. i ≡ record {
          sectors = sectors;
          bytes = replicate (512 * sectors) 0;
          flushes = 0;
          calls = first_call fails;
        }) }
    {
        let Some(size) = sectors.checked_mul(SECTOR_SIZE) else {
            return Err(AllocError);
        };
        Ok(MemImage {
            bytes: vec![in alloc; 0; size as usize]?,
            sectors,
            flushes: 0,
            faults: Faults::new(fails),
        })
    }

    /// Its bytes.
    pub fn as_slice(&self) -> &[u8]
        ensures { result.now ≡ self.now.bytes }
    {
        self.bytes.as_slice()
    }
}

impl Image for MemImage {
    ghost content = { λ i. Some i.bytes };

    ghost size = { λ i. i.sectors };

    ghost faults = { λ i. i.calls.failed };

    ghost flushes = { λ i. i.flushes };

    fn sectors(&self) -> u64 {
        self.sectors
    }

    fn read_at(&mut self, sector: u64, into: &mut [u8]) -> Result<(), Failed>
        requires { IsSpan self.old.sectors sector (length into.old) }
        ensures read { OnOk result (IsRead sector into.new (Some self.old.bytes)) }
        ensures kept { Some self.new.bytes ≡ Some self.old.bytes }
        ensures size { self.new.sectors ≡ self.old.sectors }
        ensures flushes { self.new.flushes ≡ self.old.flushes }
        ensures cause { HasCause self.old.calls.failed self.new.calls.failed result }

        // It fails exactly where the call's number is listed.
        ensures failed { IsErr result ↔ IsTrue (is_to_fail self.old.calls) }
        ensures counted { self.new.calls ≡ after_call (is_to_fail self.old.calls) self.old.calls }
    {
        if self.faults.call(false) {
            return Err(Failed);
        }
        let start = (sector * SECTOR_SIZE) as usize;
        into.copy_from_slice(&self.bytes[start..start + into.len()]);
        Ok(())
    }

    fn write_at(&mut self, sector: u64, bytes: &[u8]) -> Result<(), Failed>
        requires { IsSpan self.old.sectors sector (length bytes.now) }
        ensures written { OnOk result (IsWritten sector bytes.now (Some self.old.bytes)
            (Some self.new.bytes)) }
        ensures kept { OnErr result (Some self.new.bytes ≡ Some self.old.bytes) }
        ensures size { self.new.sectors ≡ self.old.sectors }
        ensures flushes { self.new.flushes ≡ self.old.flushes }
        ensures cause { HasCause self.old.calls.failed self.new.calls.failed result }

        // It fails exactly where the call's number is listed.
        ensures failed { IsErr result ↔ IsTrue (is_to_fail self.old.calls) }
        ensures counted { self.new.calls ≡ after_call (is_to_fail self.old.calls) self.old.calls }
    {
        if self.faults.call(false) {
            return Err(Failed);
        }
        let start = (sector * SECTOR_SIZE) as usize;
        self.bytes[start..start + bytes.len()].copy_from_slice(bytes);
        Ok(())
    }

    fn flush(&mut self) -> Result<(), Failed>
        ensures kept { Some self.new.bytes ≡ Some self.old.bytes }
        ensures size { self.new.sectors ≡ self.old.sectors }
        ensures never_falls { self.old.flushes ≤ self.new.flushes }
        ensures flushed { OnOk result (Rose self.old.flushes self.new.flushes) }
        ensures cause { HasCause self.old.calls.failed self.new.calls.failed result }

        // It fails exactly where the call's number is listed, and then counts no flush.
        ensures failed { IsErr result ↔ IsTrue (is_to_fail self.old.calls) }
        ensures unflushed { OnErr result (self.new.flushes ≡ self.old.flushes) }
        ensures counted { self.new.calls ≡ after_call (is_to_fail self.old.calls) self.old.calls }
    {
        if self.faults.call(false) {
            return Err(Failed);
        }
        self.flushes = self.flushes.saturating_add(1);
        Ok(())
    }
}
