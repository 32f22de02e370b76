//! An image in a file.

ghost use Rattle.std.specs.Prelude.{◌≡◌, ◌<◌, ◌≤◌, ◌+◌, ◌*◌, ◌/◌, ◌-◌, ◌^◌, ℕ, List, Option, None, Result, IfOk, OnOk, OnErr, length, min};
ghost use Rattle.vd_io.specs.Told.{HasCause, Rose};
ghost use Rattle.vd_io.specs.Sectors.{IsSpan, IsRead, IsWritten};
ghost use Rattle.vd_io.specs.Files.{HasSize, IsReadAt, IsWrittenAt, IsSyncedOnce, untold};

use crate::Failed;
use crate::image::{Image, SECTOR_SIZE};
use std::fs::File;
use std::os::unix::fs::FileExt;

/// A file that is read and written at any place.
pub trait RandomAccess {
    // Its bytes, if it tells them.
    ghost bytes: { Self → Option (List ℕ) };

    // How often what was written was made to stay, if it tells that.
    ghost syncs: { Self → Option ℕ };

    /// How many bytes it has.
    fn size(&self) -> Result<u64, Failed>
        ensures { IfOk result (HasSize (bytes self.now)) };

    /// Reads all of `into` from this byte on.
    fn read_from(&mut self, start: u64, into: &mut [u8]) -> Result<(), Failed>
        ensures read { OnOk result (IsReadAt start into.new (bytes self.old)) }
        ensures bytes { bytes self.new ≡ bytes self.old }
        ensures syncs { syncs self.new ≡ syncs self.old };

    /// Writes all of the bytes from this byte on. After `Failed` a part may be written.
    fn write_from(&mut self, start: u64, from: &[u8]) -> Result<(), Failed>
        ensures written { OnOk result (IsWrittenAt start from.now (bytes self.old) (bytes self.new)) }
        ensures syncs { syncs self.new ≡ syncs self.old };

    /// Makes what was written stay.
    fn sync(&mut self) -> Result<(), Failed>
        ensures bytes { bytes self.new ≡ bytes self.old }
        ensures synced { OnOk result (IsSyncedOnce (syncs self.old) (syncs self.new)) };
}

/// A file of the system tells nothing.
impl RandomAccess for File {
    ghost bytes = { λ _. None };

    ghost syncs = { λ _. None };

    fn size(&self) -> Result<u64, Failed> {
        match self.metadata() {
            Ok(metadata) => Ok(metadata.len()),
            Err(_) => Err(Failed),
        }
    }

    fn read_from(&mut self, start: u64, into: &mut [u8]) -> Result<(), Failed> {
        match self.read_exact_at(into, start) {
            Ok(()) => Ok(()),
            Err(_) => Err(Failed),
        }
    }

    /// A file that takes no byte of a piece that isn't empty has failed too.
    fn write_from(&mut self, start: u64, from: &[u8]) -> Result<(), Failed> {
        match self.write_all_at(from, start) {
            Ok(()) => Ok(()),
            Err(_) => Err(Failed),
        }
    }

    fn sync(&mut self) -> Result<(), Failed> {
        match self.sync_data() {
            Ok(()) => Ok(()),
            Err(_) => Err(Failed),
        }
    }
}

/// An image in a file. It tells no content, since a write that failed may have changed a part of it.
/// Where the file tells its bytes, they are what each read gives and each write leaves.
#[derive(Drop)]
pub struct FileImage<F> {
    file: F,
    sectors: u64,
    flushes: u64,
    faults: u64,
    ghost addressed: { 512 * sectors < 2 ^ 64 },
}

impl<F: RandomAccess + Drop> FileImage<F> {
    /// The image in an open file, of as many sectors as its bytes now fill: a rest shorter than a
    /// sector isn't used. It fails only where the file's size can't be had.
    pub fn new(file: F) -> Result<FileImage<F>, Failed>
        ensures file { IfOk result (λ i. i.file ≡ file) }
        ensures sectors { IfOk result
            (λ i. (size : ℕ) × HasSize (F.bytes file) size × (i.sectors ≡ size / 512)) }
        ensures flushes { IfOk result (λ i. i.flushes ≡ 0) }
        ensures faults { IfOk result (λ i. i.faults ≡ 0) }
    {
        let sectors = file.size()? / SECTOR_SIZE;
        Ok(FileImage {
            file,
            sectors,
            flushes: 0,
            faults: 0,
        })
    }

    /// Counts what failed.
    fn counted(&mut self, answer: Result<(), Failed>) -> Result<(), Failed>
        ensures answer { result ≡ answer }
        ensures file { self.new.file ≡ self.old.file }
        ensures sectors { self.new.sectors ≡ self.old.sectors }
        ensures flushes { self.new.flushes ≡ self.old.flushes }
        ensures sound { OnOk answer (self.new.faults ≡ self.old.faults) }
        ensures cause { HasCause self.old.faults self.new.faults result }
        ensures failed { OnErr answer (self.new.faults ≡ min (self.old.faults + 1) (2 ^ 64 - 1)) }
    {
        if answer.is_err() {
            self.faults = self.faults.saturating_add(1);
        }
        answer
    }
}

impl<F: RandomAccess + Drop> Image for FileImage<F> {
    ghost content = { λ _. untold };

    ghost size = { λ i. i.sectors };

    ghost faults = { λ i. i.faults };

    ghost flushes = { λ i. i.flushes };

    fn sectors(&self) -> u64 {
        self.sectors
    }

    fn read_at(&mut self, sector: u64, into: &mut [u8]) -> Result<(), Failed>
        requires { IsSpan self.old.sectors sector (length into.old) }
        ensures read { OnOk result (IsRead sector into.new untold) }
        ensures kept { untold ≡ untold }
        ensures size { self.new.sectors ≡ self.old.sectors }
        ensures flushes { self.new.flushes ≡ self.old.flushes }
        ensures cause { HasCause self.old.faults self.new.faults result }

        // It reads the file's own sectors, and counts a fault exactly where it fails.
        ensures own { OnOk result (IsRead sector into.new (F.bytes self.old.file)) }
        ensures bytes { F.bytes self.new.file ≡ F.bytes self.old.file }
        ensures sound { OnOk result (self.new.faults ≡ self.old.faults) }
        ensures failed { OnErr result (self.new.faults ≡ min (self.old.faults + 1) (2 ^ 64 - 1)) }
    {
        let answer = self.file.read_from(sector * SECTOR_SIZE, into);
        self.counted(answer)
    }

    fn write_at(&mut self, sector: u64, bytes: &[u8]) -> Result<(), Failed>
        requires { IsSpan self.old.sectors sector (length bytes.now) }
        ensures written { OnOk result (IsWritten sector bytes.now untold untold) }
        ensures kept { OnErr result (untold ≡ untold) }
        ensures size { self.new.sectors ≡ self.old.sectors }
        ensures flushes { self.new.flushes ≡ self.old.flushes }
        ensures cause { HasCause self.old.faults self.new.faults result }

        // It writes the file's own sectors, and counts a fault exactly where it fails.
        ensures own { OnOk result (IsWritten sector bytes.now (F.bytes self.old.file)
            (F.bytes self.new.file)) }
        ensures sound { OnOk result (self.new.faults ≡ self.old.faults) }
        ensures failed { OnErr result (self.new.faults ≡ min (self.old.faults + 1) (2 ^ 64 - 1)) }
    {
        let answer = self.file.write_from(sector * SECTOR_SIZE, bytes);
        self.counted(answer)
    }

    fn flush(&mut self) -> Result<(), Failed>
        ensures kept { untold ≡ untold }
        ensures size { self.new.sectors ≡ self.old.sectors }
        ensures never_falls { self.old.flushes ≤ self.new.flushes }
        ensures flushed { OnOk result (Rose self.old.flushes self.new.flushes) }
        ensures cause { HasCause self.old.faults self.new.faults result }

        // A flush is counted exactly where the file was synced, and else a fault.
        ensures synced { OnOk result (IsSyncedOnce (F.syncs self.old.file) (F.syncs self.new.file)) }
        ensures bytes { F.bytes self.new.file ≡ F.bytes self.old.file }
        ensures unflushed { OnErr result (self.new.flushes ≡ self.old.flushes) }
        ensures sound { OnOk result (self.new.faults ≡ self.old.faults) }
        ensures failed { OnErr result (self.new.faults ≡ min (self.old.faults + 1) (2 ^ 64 - 1)) }
    {
        let answer = self.file.sync();
        self.counted(answer)?;
        self.flushes = self.flushes.saturating_add(1);
        Ok(())
    }
}
