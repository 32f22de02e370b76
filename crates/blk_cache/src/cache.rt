//! The cache, and how it writes dirty sectors back.

ghost use Rattle.std.specs.Prelude.{◌≡◌, ◌<◌, ◌≤◌, ◌+◌, ◌*◌, ◌/◌, ◌^◌, ℕ, List, Bool, true, None, Option, Result, IfOk, IfErr, OnOk, OnErr, IsSome, length, min};
ghost use Rattle.vd_io.specs.Told.{HasCause};
ghost use Rattle.vd_io.specs.Sectors.{IsSpan};
ghost use Rattle.blk_disk.specs.Contents.{AreWhole};
ghost use Rattle.blk_disk.specs.Moments.{AreSingle, Lie};
ghost use Rattle.blk_dirty.specs.Dirty.{bytes_at, clean, piece, mark, AreLines};
ghost use Rattle.blk_cache.specs.Cached.{now, newest_alone, Keeps, Moves};

use blk_dirty::Dirty;
use blk_disk::Disk;
use std::alloc::Global;
use vd_io::Failed;

/// The bytes of a sector.
pub const SECTOR_SIZE: u64 = 512;

/// How many sectors one write may have: those of 16,777,216 bytes.
const MOST_WRITTEN: u64 = 32_768;

/// A cache that can't be had for want of memory; the disk comes back.
#[derive(Drop)]
pub struct CacheRefused<D> {
    pub disk: D,
}

/// A write-back cache over a disk. It is an image: what is written is kept here, at most `lines` dirty
/// sectors between calls, and goes to the disk later.
#[derive(Drop)]
pub struct Cache<D: Disk> {
    pub(crate) disk: D,
    pub(crate) dirty: Dirty,
    pub(crate) lines: u64,
    pub(crate) flushes: u64,
    next: u64,
    ghost few: { lines ≤ 65536 },
    ghost place: { next ≤ length dirty.lines },
    ghost sectors: { length dirty.lines ≡ D.size disk },
    ghost room: { dirty.room ≡ min (D.size disk) (lines + 32768) },
    ghost whole: { D.tells ≡ true → AreWhole (D.size disk) (D.present disk) },
}

impl<D: Disk + Drop> Cache<D> {
    /// A cache over the disk, in which at most so many sectors stay dirty. It takes all its memory here.
    pub fn new(alloc: Global, disk: D, lines: u64) -> Result<Cache<D>, CacheRefused<D>>
        requires some { 0 < lines }
        requires few { lines ≤ 65536 }
        requires settled { D.tells ≡ true → AreSingle (D.present disk) (D.may_leave disk) }
        ensures disk { IfOk result (λ c. c.disk ≡ disk) }
        ensures none { IfOk result (λ c. (s : ℕ) → bytes_at c.dirty s ≡ None) }
        ensures clean { IfOk result (λ c. c.dirty.len ≡ 0) }
        ensures lines { IfOk result (λ c. c.lines ≡ lines) }
        ensures flushes { IfOk result (λ c. c.flushes ≡ 0) }

        // A crash leaves what the disk has.
        ensures kept { IfOk result (λ c. D.tells ≡ true →
            Keeps (newest_alone (D.present disk)) (now c.dirty (D.present c.disk)) (D.may_leave c.disk)) }
        ensures refused { IfErr result (λ e. e.disk ≡ disk) }
    {
        let sectors = disk.sectors();
        match Dirty::new(alloc, sectors, sectors.min(lines + MOST_WRITTEN)) {
            Ok(dirty) => Ok(Cache {
                disk,
                dirty,
                lines,
                flushes: 0,
                next: 0,
            }),
            Err(_) => Err(CacheRefused { disk }),
        }
    }

    /// How many sectors are dirty.
    pub fn dirty(&self) -> u64
        ensures { result ≡ self.now.dirty.len }
    {
        self.dirty.len()
    }

    /// The disk, as it is: what is dirty is lost.
    pub fn into_disk(self) -> D
        ensures { result ≡ self.disk }
    {
        self.disk
    }

    /// Writes one dirty sector to the disk.
    fn write_back_one(&mut self, sector: u64) -> Result<(), Failed>
        requires { sector < length self.old.dirty.lines }
        ensures moves { Moves D.tells D.present D.may_leave D.through self.old.disk self.new.disk
            self.old.dirty self.new.dirty }
        ensures ok { OnOk result (self.new.dirty.len + mark (bytes_at self.old.dirty sector)
            ≡ self.old.dirty.len) }
        ensures len { self.new.dirty.len ≤ self.old.dirty.len }
        ensures size { D.size self.new.disk ≡ D.size self.old.disk }
        ensures cause { HasCause (D.faults self.old.disk) (D.faults self.new.disk) result }
        ensures lines { self.new.lines ≡ self.old.lines }
        ensures flushes { self.new.flushes ≡ self.old.flushes }
    {
        let Some(bytes) = self.dirty.get(sector) else {
            return Ok(());
        };
        self.disk.write(sector, bytes)?;
        self.dirty.remove(sector);
        Ok(())
    }

    /// Writes dirty sectors to the disk, in ascending order, until at most so many are dirty.
    pub(crate) fn write_back(&mut self, most: u64) -> Result<(), Failed>
        ensures moves { Moves D.tells D.present D.may_leave D.through self.old.disk self.new.disk
            self.old.dirty self.new.dirty }
        ensures ok { OnOk result (self.new.dirty.len ≤ most) }
        ensures none { OnOk result (most ≡ 0 → (s : ℕ) → bytes_at self.new.dirty s ≡ None) }
        ensures len { self.new.dirty.len ≤ self.old.dirty.len }
        ensures idle { self.old.dirty.len ≤ most →
            (self.new.disk ≡ self.old.disk) × (self.new.dirty ≡ self.old.dirty) }
        ensures size { D.size self.new.disk ≡ D.size self.old.disk }
        ensures cause { HasCause (D.faults self.old.disk) (D.faults self.new.disk) result }
        ensures lines { self.new.lines ≡ self.old.lines }
        ensures flushes { self.new.flushes ≡ self.old.flushes }
    {
        while self.dirty.len() > most {
            let Some(sector) = self.dirty.next(self.next) else {
                return Ok(());
            };
            self.next = sector;
            self.write_back_one(sector)?;
        }
        Ok(())
    }

    /// Makes what was written to the disk stay there.
    pub(crate) fn settle(&mut self) -> Result<(), Failed>
        ensures kept { D.tells ≡ true → (s : ℕ) → D.present self.new.disk s ≡ D.present self.old.disk s }
        ensures settled { D.tells ≡ true →
            OnOk result (AreSingle (D.present self.new.disk) (D.may_leave self.new.disk)) }
        ensures lists { D.tells ≡ true →
            OnErr result ((s : ℕ) → D.may_leave self.new.disk s ≡ D.may_leave self.old.disk s) }
        ensures moments { D.tells ≡ true → (map : ℕ → List (List ℕ)) → Lie map (D.may_leave self.old.disk) →
            Lie map (D.may_leave self.new.disk) → D.through map self.old.disk self.new.disk }
        ensures dirty { self.new.dirty ≡ self.old.dirty }
        ensures size { D.size self.new.disk ≡ D.size self.old.disk }
        ensures cause { HasCause (D.faults self.old.disk) (D.faults self.new.disk) result }
        ensures lines { self.new.lines ≡ self.old.lines }
        ensures flushes { self.new.flushes ≡ self.old.flushes }
    {
        self.disk.sync()
    }

    /// Makes room for a write of so many sectors from this one on.
    pub(crate) fn make_room(&mut self, sector: u64, count: u64) -> Result<(), Failed>
        requires inside { sector + count ≤ D.size self.old.disk }
        requires few { count ≤ 32768 }
        ensures moves { Moves D.tells D.present D.may_leave D.through self.old.disk self.new.disk
            self.old.dirty self.new.dirty }
        ensures whole { AreLines (bytes_at self.old.dirty) }
        ensures ok { OnOk result (self.new.dirty.len + clean (bytes_at self.new.dirty) sector count
            ≤ self.new.dirty.room) }
        ensures idle { self.old.dirty.len + clean (bytes_at self.old.dirty) sector count ≤ self.old.lines →
            (self.new.disk ≡ self.old.disk) × (self.new.dirty ≡ self.old.dirty) }
        ensures size { D.size self.new.disk ≡ D.size self.old.disk }
        ensures cause { HasCause (D.faults self.old.disk) (D.faults self.new.disk) result }
        ensures lines { self.new.lines ≡ self.old.lines }
        ensures flushes { self.new.flushes ≡ self.old.flushes }
    {
        let clean = self.dirty.clean(sector, count);
        if clean > self.dirty.room() - self.dirty.len() {
            let rest = self.dirty.room() - count;
            self.write_back(rest)?;
        }
        Ok(())
    }

    /// Reads what the disk has of whole sectors from this one on, where not all are dirty.
    pub(crate) fn read_below(&mut self, sector: u64, into: &mut [u8]) -> Result<(), Failed>
        requires { IsSpan (D.size self.old.disk) sector (length into.old) }
        ensures read { D.tells ≡ true → OnOk result ((s : ℕ) → sector ≤ s → s < sector + length into.old / 512 →
            bytes_at self.old.dirty s ≡ None → piece sector into.new s ≡ D.present self.old.disk s) }
        ensures moves { Moves D.tells D.present D.may_leave D.through self.old.disk self.new.disk
            self.old.dirty self.new.dirty }
        ensures whole { AreLines (bytes_at self.old.dirty) }
        ensures dirty { self.new.dirty ≡ self.old.dirty }
        ensures size { D.size self.new.disk ≡ D.size self.old.disk }
        ensures cause { HasCause (D.faults self.old.disk) (D.faults self.new.disk) result }
        ensures lines { self.new.lines ≡ self.old.lines }
        ensures flushes { self.new.flushes ≡ self.old.flushes }
    {
        if self.dirty.clean(sector, into.len() as u64 / SECTOR_SIZE) > 0 {
            self.disk.read(sector, into)?;
        }
        Ok(())
    }
}
