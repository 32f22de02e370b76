//! What a disk in memory holds.

ghost use Rattle.std.specs.Prelude.{◌≡◌, ◌≢◌, ◌∷◌, ◌+◌, ◌*◌, ◌<◌, ◌≤◌, ℕ, [], IfOk, IfSome, length, replicate, take, drop, filter, not, ◌==◌, vec_capacity};
ghost use Rattle.vd_io.specs.Sectors.{IsSpan, with_sectors};
ghost use Rattle.blk_disk.specs.Contents.{Has, joined};
ghost use Rattle.blk_memory_disk.specs.Stored.{content_at, older_at, list_at, kept_older, overwritten, settled};

use std::alloc::{AllocError, Global};
use std::marker::Model;

/// The bytes of a sector.
const SECTOR_SIZE: u64 = 512;

/// An older content of a sector, which a crash may bring back.
#[derive(Clone, Copy)]
pub struct Older {
    sector: u64,
    bytes: [u8; 512],
}

/// The bytes of all sectors, and beside them older contents, which a crash may bring back.
#[derive(Drop)]
pub struct Store {
    bytes: Vec<u8>,
    sectors: u64,
    older: Vec<Older>,
    room: usize,
}

impl Model for Store {
    ghost use Rattle.std.specs.Prelude.{◌≡◌, ◌<◌, ◌≤◌, ◌*◌, ◌^◌, length, vec_capacity};
    ghost use Rattle.blk_memory_disk.specs.Stored.{Stored};

    ghost Value = { Stored };

    ghost view = { λ d. record { sectors = d.sectors; bytes = d.bytes.items; older = d.older.items; room = d.room } };

    ghost invariant = { λ d. (length d.bytes.items ≡ 512 * d.sectors) × (512 * d.sectors < 2 ^ 64)
        × (length d.older.items ≤ d.room) × (d.room ≤ vec_capacity d.older) };
}

/// Forgets the older contents of a sector.
fn forget(older: &mut Vec<Older>, sector: u64)
    ensures forgotten { older.new.items ≡ filter (λ o. not (o.sector == sector)) older.old.items }
    ensures fewer { length older.new.items ≤ length older.old.items }
    ensures capacity { vec_capacity older.new ≡ vec_capacity older.old }
{
    older.retain(|o| o.sector != sector);
}

/// Keeps one older content more where there is room, and else none of its sector.
fn keep(older: &mut Vec<Older>, room: usize, more: Older)
    requires within { length older.old.items ≤ room }
    requires room { room ≤ vec_capacity older.old }
    ensures kept { older.new.items ≡ kept_older room more older.old.items }
    ensures within { length older.new.items ≤ room }
    ensures capacity { vec_capacity older.old ≤ vec_capacity older.new }
{
    if older.len() < room {
        older.push(more).unwrap();
    } else {
        forget(older, more.sector);
    }
}

/// The bytes of a sector.
fn sector_bytes(bytes: &[u8], sector: u64) -> [u8; 512]
    requires { 512 * sector + 512 ≤ length bytes.now }
    ensures { result ≡ content_at bytes.now sector }
{
    let start = (sector * SECTOR_SIZE) as usize;
    let mut content = [0; 512];
    content.copy_from_slice(&bytes[start..start + 512]);
    content
}

/// Replaces the bytes of a sector.
fn replace(bytes: &mut [u8], sector: u64, content: &[u8])
    requires inside { 512 * sector + 512 ≤ length bytes.old }
    requires whole { length content.now ≡ 512 }
    ensures { bytes.new ≡ with_sectors sector content.now bytes.old }
{
    let start = (sector * SECTOR_SIZE) as usize;
    bytes[start..start + content.len()].copy_from_slice(content);
}

/// One of the sector's older contents, or none for the present one, as `pick` says.
fn chosen(older: &[Older], sector: u64, pick: u64) -> Option<[u8; 512]>
    ensures { IfSome result (λ content. Has content (older_at older.now sector)) }
{
    let count = older.iter().filter(|o| o.sector == sector).count() as u64;
    let mut left = pick % (count + 1);
    for o in older {
        if o.sector == sector {
            if left == 1 {
                return Some(o.bytes);
            }
            left = left.saturating_sub(1);
        }
    }
    None
}

/// Leaves in the sector one content of its list, as `pick` says.
fn bring_back(bytes: &mut [u8], older: &[Older], sector: u64, pick: u64)
    requires { 512 * sector + 512 ≤ length bytes.old }
    ensures own { Has (content_at bytes.new sector) (content_at bytes.old sector ∷ older_at older.now sector) }
    ensures others { (s : ℕ) → s ≢ sector → content_at bytes.new s ≡ content_at bytes.old s }
{
    let Some(old) = chosen(older, sector, pick) else {
        return;
    };
    replace(bytes, sector, &old);
}

/// Leaves in each sector one content of its list, as `pick` says.
fn bring_back_all(bytes: &mut [u8], older: &[Older], sectors: u64, pick: u64)
    requires { length bytes.old ≡ 512 * sectors }
    ensures { (s : ℕ) → s < sectors → Has (content_at bytes.new s) (content_at bytes.old s ∷ older_at older.now s) }
{
    for sector in 0..sectors {
        bring_back(bytes, older, sector, pick >> (sector % 64));
    }
}

impl Store {
    /// So many sectors of zeros, with room for so many older contents.
    pub fn new(alloc: Global, sectors: u64, room: u64) -> Result<Store, AllocError>
        ensures { IfOk result (λ d. d ≡ record {
          sectors = sectors;
          bytes = replicate (512 * sectors) 0;
          older = [];
          room = room;
        }) }
    {
        let Some(size) = sectors.checked_mul(SECTOR_SIZE) else {
            return Err(AllocError);
        };
        Ok(Store {
            bytes: vec![in alloc; 0; size as usize]?,
            sectors,
            older: Vec::with_capacity(alloc, room as usize)?,
            room: room as usize,
        })
    }

    /// How many sectors there are.
    pub fn sectors(&self) -> u64
        ensures sectors { result ≡ self.now.sectors }
        ensures whole { length self.now.bytes ≡ 512 * result }
    {
        self.sectors
    }

    /// The bytes of all sectors.
    pub fn as_slice(&self) -> &[u8]
        ensures bytes { result.now ≡ self.now.bytes }
        ensures whole { length self.now.bytes ≡ 512 * self.now.sectors }
    {
        self.bytes.as_slice()
    }

    /// Reads whole sectors from this one on.
    pub fn read(&self, sector: u64, into: &mut [u8])
        requires { IsSpan self.now.sectors sector (length into.old) }
        ensures { into.new ≡ take (length into.old) (drop (512 * sector) self.now.bytes) }
    {
        let bytes = self.bytes.as_slice();
        let start = (sector * SECTOR_SIZE) as usize;
        into.copy_from_slice(&bytes[start..start + into.len()]);
    }

    /// Replaces one sector, and keeps what it had.
    pub fn write(&mut self, sector: u64, bytes: &[u8])
        requires inside { IsSpan self.old.sectors sector (length bytes.now) }
        requires one { length bytes.now ≡ 512 }
        ensures written { self.new ≡ overwritten sector bytes.now self.old }
        ensures inside { 512 * sector + 512 ≤ length self.old.bytes }
    {
        let old = sector_bytes(&self.bytes, sector);
        keep(&mut self.older, self.room, Older { sector, bytes: old });
        replace(&mut self.bytes, sector, bytes);
    }

    /// Forgets the older contents.
    pub fn settle(&mut self)
        ensures { self.new ≡ settled self.old }
    {
        self.older.clear();
    }

    /// Leaves in each sector one content of its list, as `pick` says, and none beside them.
    pub fn crash(&mut self, pick: u64)
        ensures left { (s : ℕ) → s < self.old.sectors → Has (content_at self.new.bytes s) (list_at self.old s) }
        ensures alone { self.new.older ≡ [] }
        ensures sectors { self.new.sectors ≡ self.old.sectors }
        ensures room { self.new.room ≡ self.old.room }
    {
        bring_back_all(&mut self.bytes, &self.older, self.sectors, pick);
        self.settle();
    }
}
