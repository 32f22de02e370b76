//! A disk in a file.

ghost use Rattle.std.specs.Prelude.{◌≡◌, ◌≢◌, ◌/◌, ◌+◌, ◌-◌, ◌^◌, ℕ, List, [], true, false, Result, IfOk, OnOk, OnErr, length, min};
ghost use Rattle.vd_io.specs.Told.{HasCause, Rose};
ghost use Rattle.vd_io.specs.Sectors.{IsSpan};
ghost use Rattle.vd_io.specs.Files.{HasSize};
ghost use Rattle.blk_disk.specs.Contents.{Has, AreWhole, IsEither, joined};
ghost use Rattle.blk_disk.specs.Moments.{Lie, IsListedWrite, AreSingle};

use blk_disk::Disk;
use vd_io::{Failed, FileImage, Image, RandomAccess};

/// A disk in a file: the file's image, whose flush is its sync. It tells no contents, since nobody knows
/// what a crash of the system leaves of them.
#[derive(Drop)]
pub struct FileDisk<F> {
    image: FileImage<F>,
    calls: u64,
}

impl<F: RandomAccess + Drop> FileDisk<F> {
    /// The disk in an open file, of as many sectors as its bytes now fill: a rest shorter than a
    /// sector isn't used. It fails only where the file's size can't be had.
    pub fn new(file: F) -> Result<FileDisk<F>, Failed>
        ensures file { IfOk result (λ d. d.image.file ≡ file) }
        ensures sectors { IfOk result
            (λ d. (size : ℕ) × HasSize (F.bytes file) size × (d.image.sectors ≡ size / 512)) }
        ensures faults { IfOk result (λ d. d.image.faults ≡ 0) }
        ensures calls { IfOk result (λ d. d.calls ≡ 0) }
    {
        Ok(FileDisk {
            image: FileImage::new(file)?,
            calls: 0,
        })
    }
}

impl<F: RandomAccess + Drop> Disk for FileDisk<F> {
    ghost tells = { false };

    ghost size = { λ d. d.image.sectors };

    ghost present = { λ _ _. [] };

    ghost may_leave = { λ _ _. [] };

    ghost clock = { λ d. d.calls };

    ghost faults = { λ d. d.image.faults };

    ghost through = { λ _ _ _. Unit {0} };

    fn sectors(&self) -> u64 {
        self.image.sectors()
    }

    fn read(&mut self, sector: u64, into: &mut [u8]) -> Result<(), Failed> {
        self.calls = self.calls.saturating_add(1);
        self.image.read_at(sector, into)
    }

    fn write(&mut self, sector: u64, bytes: &[u8]) -> Result<(), Failed> {
        self.calls = self.calls.saturating_add(1);
        self.image.write_at(sector, bytes)
    }

    fn sync(&mut self) -> Result<(), Failed> {
        self.calls = self.calls.saturating_add(1);
        self.image.flush()
    }

    ghost stays = { λ _ _ _. tt };

    ghost goes_on = { λ _ _ _ _ _ _. tt };
}
