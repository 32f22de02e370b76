//! The cache as an image.

ghost use Rattle.std.specs.Prelude.{◌≡◌, ◌<◌, ◌≤◌, ◌+◌, ◌*◌, ◌/◌, ℕ, List, Option, Some, true, Result, OnOk, OnErr, length};
ghost use Rattle.vd_io.specs.Told.{HasCause, Rose};
ghost use Rattle.vd_io.specs.Sectors.{IsSpan, IsRead, IsWritten};
ghost use Rattle.blk_disk.specs.Moments.{AreSingle};
ghost use Rattle.blk_dirty.specs.Dirty.{bytes_at, clean};
ghost use Rattle.blk_cache.specs.Cached.{now, content_of, given, kept_with, newest_alone, Keeps};

use crate::cache::{Cache, SECTOR_SIZE};
use blk_disk::Disk;
use vd_io::{Failed, Image};

impl<D: Disk + Drop> Image for Cache<D> {
    ghost content = { λ c. content_of D.tells (now c.dirty (D.present c.disk)) (D.size c.disk) };

    ghost size = { λ c. D.size c.disk };

    ghost faults = { λ c. D.faults c.disk };

    ghost flushes = { λ c. c.flushes };

    fn sectors(&self) -> u64 {
        self.dirty.sectors()
    }

    fn read_at(&mut self, sector: u64, into: &mut [u8]) -> Result<(), Failed>
        requires { IsSpan (D.size self.old.disk) sector (length into.old) }
        ensures read { OnOk result (IsRead sector into.new
            (content_of D.tells (now self.old.dirty (D.present self.old.disk))
            (D.size self.old.disk))) }
        ensures kept { content_of D.tells (now self.new.dirty (D.present self.new.disk)) (D.size self.new.disk)
            ≡ content_of D.tells (now self.old.dirty (D.present self.old.disk)) (D.size self.old.disk) }
        ensures size { D.size self.new.disk ≡ D.size self.old.disk }
        ensures flushes { self.new.flushes ≡ self.old.flushes }
        ensures cause { HasCause (D.faults self.old.disk) (D.faults self.new.disk) result }

        // Nothing else is kept, and a crash within the call leaves what is.
        ensures crash { D.tells ≡ true → (kept : ℕ → List (List ℕ)) →
            Keeps kept (now self.old.dirty (D.present self.old.disk)) (D.may_leave self.old.disk) →
            D.through kept self.old.disk self.new.disk
            × Keeps kept (now self.new.dirty (D.present self.new.disk)) (D.may_leave self.new.disk) }
        ensures dirty { self.new.dirty ≡ self.old.dirty }
        ensures lines { self.new.lines ≡ self.old.lines }
    {
        self.read_below(sector, into)?;
        self.dirty.copy_over(sector, into);
        Ok(())
    }

    /// The bytes are kept here. Dirty sectors go to the disk first where there is no room, and afterwards
    /// until at most `lines` are dirty, or a call on the disk fails.
    fn write_at(&mut self, sector: u64, bytes: &[u8]) -> Result<(), Failed>
        requires { IsSpan (D.size self.old.disk) sector (length bytes.now) }
        ensures written { OnOk result (IsWritten sector bytes.now
            (content_of D.tells (now self.old.dirty (D.present self.old.disk)) (D.size self.old.disk))
            (content_of D.tells (now self.new.dirty (D.present self.new.disk)) (D.size self.new.disk))) }
        ensures kept { OnErr result
            (content_of D.tells (now self.new.dirty (D.present self.new.disk)) (D.size self.new.disk)
            ≡ content_of D.tells (now self.old.dirty (D.present self.old.disk)) (D.size self.old.disk)) }
        ensures size { D.size self.new.disk ≡ D.size self.old.disk }
        ensures flushes { self.new.flushes ≡ self.old.flushes }
        ensures cause { HasCause (D.faults self.old.disk) (D.faults self.new.disk) result }

        // What the write gives its sectors is kept too, and a crash within the call leaves what is.
        ensures crash { D.tells ≡ true → (kept : ℕ → List (List ℕ)) →
            Keeps kept (now self.old.dirty (D.present self.old.disk)) (D.may_leave self.old.disk) →
            D.through (kept_with sector bytes.now kept) self.old.disk self.new.disk
            × Keeps (kept_with sector bytes.now kept) (now self.new.dirty (D.present self.new.disk))
            (D.may_leave self.new.disk) }

        // At most `lines` sectors are dirty afterwards, if no call on the disk failed.
        ensures bounded { OnOk result ((Rose (D.faults self.old.disk) (D.faults self.new.disk) → ⊥)
            → self.new.dirty.len ≤ self.new.lines) }

        // Where its sectors fit beside the dirty ones, the disk isn't called.
        ensures idle { self.old.dirty.len + clean (bytes_at self.old.dirty) sector
            (length bytes.now / 512) ≤ self.old.lines →
            D.clock self.new.disk ≡ D.clock self.old.disk }
        ensures lines { self.new.lines ≡ self.old.lines }
    {
        self.make_room(sector, bytes.len() as u64 / SECTOR_SIZE)?;
        self.dirty.put_all(sector, bytes);
        let lines = self.lines;
        let _ = self.write_back(lines);
        Ok(())
    }

    /// Writes all dirty sectors to the disk, and makes them stay there.
    fn flush(&mut self) -> Result<(), Failed>
        ensures kept { content_of D.tells (now self.new.dirty (D.present self.new.disk)) (D.size self.new.disk)
            ≡ content_of D.tells (now self.old.dirty (D.present self.old.disk)) (D.size self.old.disk) }
        ensures size { D.size self.new.disk ≡ D.size self.old.disk }
        ensures never_falls { self.old.flushes ≤ self.new.flushes }
        ensures flushed { OnOk result (Rose self.old.flushes self.new.flushes) }
        ensures cause { HasCause (D.faults self.old.disk) (D.faults self.new.disk) result }

        // A crash within the call leaves what is kept; afterwards the newest contents alone.
        ensures crash { D.tells ≡ true → (kept : ℕ → List (List ℕ)) →
            Keeps kept (now self.old.dirty (D.present self.old.disk)) (D.may_leave self.old.disk) →
            D.through kept self.old.disk self.new.disk
            × Keeps kept (now self.new.dirty (D.present self.new.disk)) (D.may_leave self.new.disk) }
        ensures settled { D.tells ≡ true →
            OnOk result (Keeps (newest_alone (now self.old.dirty (D.present self.old.disk)))
            (now self.new.dirty (D.present self.new.disk)) (D.may_leave self.new.disk)) }
        ensures single { D.tells ≡ true →
            OnOk result (AreSingle (D.present self.new.disk) (D.may_leave self.new.disk)) }
        ensures clean { OnOk result (self.new.dirty.len ≡ 0) }
        ensures unflushed { OnErr result (self.new.flushes ≡ self.old.flushes) }
        ensures lines { self.new.lines ≡ self.old.lines }
    {
        self.write_back(0)?;
        self.settle()?;
        self.flushes = self.flushes.saturating_add(1);
        Ok(())
    }
}
