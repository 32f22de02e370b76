//! Carrying a request out on an image.
ghost use Rattle.std.specs.Prelude.{◌≡◌, ◌<◌, ◌≤◌, ◌+◌, ◌*◌, ◌/◌, ◌%◌, ◌==◌, ◌||◌, ◌++◌, ◌≢◌, ℕ, List, not, nat_lt, length, replicate, true, false};
ghost use Rattle.blk_proto.specs.Numbers.{status_number};
ghost use Rattle.vd_model.specs.Block.{id_bytes};
ghost use Rattle.vd_model.specs.Creation.{has_feature};
ghost use Rattle.vd_model.specs.declared.memory.Window.{Window};
ghost use Rattle.blk_proto.specs.Headers.{IsAt};
ghost use Rattle.vd_model.specs.Block.{block_of};
ghost use Rattle.blk_daemon.specs.Held.{outcome_in};
ghost use Rattle.blk_daemon.specs.Executed.{Executes, block_with};

use crate::features::{READ_ONLY, has_feature};
use blk_proto::{BlkStatus, BlkType, Header, Window};
use vd_io::Image;
use vd_num::{get32, get64};

/// The bytes of the name that a device tells.
const ID_LEN: usize = 20;

/// What a device's requests go to: its window of an image, the features that it offers, and its name.
#[derive(Clone, Copy)]
pub struct Device<'a> {
    pub window: Window,
    pub offered: u64,
    pub name: &'a [u8],
}

/// How a request ended: its status, and whether the image failed at it.
#[derive(Clone, Copy, Debug, PartialEq, Eq)]
pub struct Executed {
    pub status: u8,
    pub failed: bool,
}

/// The same of a request that is carried out, its status by name.
#[derive(Clone, Copy)]
struct Outcome {
    status: BlkStatus,
    failed: bool,
}

impl Outcome {
    /// It ended so, and the image didn't fail.
    fn of(status: BlkStatus) -> Outcome
        ensures { result ≡ record { status = status; failed = false } }
    {
        Outcome {
            status,
            failed: false,
        }
    }

    /// The image failed.
    fn failed() -> Outcome
        ensures { result ≡ record { status = BlkStatus.IoErr; failed = true } }
    {
        Outcome {
            status: BlkStatus::IoErr,
            failed: true,
        }
    }
}

/// Whether so many bytes from a sector on aren't whole sectors of a window.
fn is_outside(window: &Window, sector: u64, len: usize) -> bool
    ensures { result ≡ (not (len % 512 == 0) || nat_lt window.now.count (sector + len / 512)) }
{
    let count = len as u64 / 512;
    len % 512 != 0 || count > window.count || sector > window.count - count
}

/// Reads sectors into zeros, which stay where that fails.
fn read_sectors<I: Image>(disk: &mut I, window: &Window, sector: u64, into: &mut [u8]) -> Outcome
    requires window { window.now.first + window.now.count ≤ I.size disk.old }
    requires short { length into.old ≤ 16777216 }
    requires blank { into.old ≡ replicate (length into.old) 0 }
    ensures executed { (payload : List ℕ) (offered : ℕ) (name : List ℕ) →
        Executes I.content I.faults I.flushes window.now offered name (block_with 0 sector payload (length into.old))
        result.failed disk.old disk.new (record { status = status_number result.status; bytes = into.new }) }
    ensures size { I.size disk.new ≡ I.size disk.old }
{
    if is_outside(window, sector, into.len()) {
        return Outcome::of(BlkStatus::IoErr);
    }
    if into.is_empty() {
        return Outcome::of(BlkStatus::Ok);
    }
    let sectors = disk.sectors();
    prove!(window.first + sector < sectors);
    match disk.read_at(window.first + sector, into) {
        Ok(()) => Outcome::of(BlkStatus::Ok),
        Err(_) => {
            into.fill(0);
            Outcome::failed()
        }
    }
}

/// Writes the payload over sectors.
fn write_sectors<I: Image>(disk: &mut I, window: &Window, sector: u64, payload: &[u8]) -> Outcome
    requires window { window.now.first + window.now.count ≤ I.size disk.old }
    requires short { length payload.now ≤ 16777216 }
    ensures executed { (room offered : ℕ) (name : List ℕ) → has_feature offered 5 ≡ false →
        Executes I.content I.faults I.flushes window.now offered name (block_with 1 sector payload.now room)
        result.failed disk.old disk.new (record { status = status_number result.status; bytes = replicate room 0 }) }
    ensures size { I.size disk.new ≡ I.size disk.old }
{
    if is_outside(window, sector, payload.len()) {
        return Outcome::of(BlkStatus::IoErr);
    }
    if payload.is_empty() {
        return Outcome::of(BlkStatus::Ok);
    }
    let sectors = disk.sectors();
    prove!(window.first + sector < sectors);
    match disk.write_at(window.first + sector, payload) {
        Ok(()) => Outcome::of(BlkStatus::Ok),
        Err(_) => Outcome::failed(),
    }
}

/// Makes what was written stay.
fn flush<I: Image>(disk: &mut I) -> Outcome
    ensures executed { (window : Window) (sector room offered : ℕ) (payload name : List ℕ) →
        Executes I.content I.faults I.flushes window offered name (block_with 4 sector payload room)
        result.failed disk.old disk.new (record { status = status_number result.status; bytes = replicate room 0 }) }
    ensures size { I.size disk.new ≡ I.size disk.old }
{
    match disk.flush() {
        Ok(()) => Outcome::of(BlkStatus::Ok),
        Err(_) => Outcome::failed(),
    }
}

/// Writes the front of a name over zeros.
fn copy_id(name: &[u8], into: &mut [u8]) -> BlkStatus
    requires blank { into.old ≡ replicate (length into.old) 0 }
    ensures told { length into.old ≡ 20 → (result ≡ BlkStatus.Ok) × (into.new ≡ id_bytes name.now) }
    ensures refused { length into.old ≢ 20 → (result ≡ BlkStatus.IoErr) × (into.new ≡ into.old) }
{
    if into.len() != ID_LEN {
        return BlkStatus::IoErr;
    }
    let len = name.len().min(ID_LEN);
    into[..len].copy_from_slice(&name[..len]);
    BlkStatus::Ok
}

/// Carries a request out: it writes the answer's bytes over zeros, and answers the status.
fn carry_out<I: Image>(
    disk: &mut I,
    device: &Device,
    header: &Header,
    payload: &[u8],
    into: &mut [u8],
) -> Outcome
    requires window { device.now.window.first + device.now.window.count ≤ I.size disk.old }
    requires short_payload { length payload.now ≤ 16777216 }
    requires short { length into.old ≤ 16777216 }
    requires blank { into.old ≡ replicate (length into.old) 0 }
    ensures executed { let b = block_with header.now.kind header.now.sector payload.now (length into.old) in
        Executes I.content I.faults I.flushes device.now.window device.now.offered device.now.name.now b
        result.failed disk.old disk.new (record { status = status_number result.status; bytes = into.new }) }
    ensures size { I.size disk.new ≡ I.size disk.old }
{
    match BlkType::from_number(header.kind) {
        Some(BlkType::In) => read_sectors(disk, &device.window, header.sector, into),
        Some(BlkType::Out) if has_feature(device.offered, READ_ONLY) => {
            Outcome::of(BlkStatus::IoErr)
        }
        Some(BlkType::Out) => write_sectors(disk, &device.window, header.sector, payload),
        Some(BlkType::Flush) => flush(disk),
        Some(BlkType::GetId) => Outcome::of(copy_id(device.name, into)),
        None => Outcome::of(BlkStatus::Unsupp),
    }
}

/// The header in front of a request's bytes.
pub fn header_of(bytes: &[u8]) -> Header
    requires { 16 ≤ length bytes.now }
    ensures { IsAt bytes.now result }
{
    Header {
        kind: get32(bytes, 0),
        reserved: get32(bytes, 4),
        sector: get64(bytes, 8),
    }
}

/// Executes the request in these bytes: it writes the answer's bytes and behind them the status over zeros, and answers
/// the status and whether the image failed.
pub fn execute<I: Image>(disk: &mut I, device: &Device, bytes: &[u8], into: &mut [u8]) -> Executed
    requires window { device.now.window.first + device.now.window.count ≤ I.size disk.old }
    requires has_header { 16 ≤ length bytes.now }
    requires has_status { 0 < length into.old }
    requires short_bytes { length bytes.now ≤ 16777216 }
    requires short { length into.old ≤ 16777216 }
    requires blank { into.old ≡ replicate (length into.old) 0 }
    ensures executed { Executes I.content I.faults I.flushes device.now.window device.now.offered device.now.name.now
        (block_of bytes.now (length into.old)) result.failed disk.old disk.new (outcome_in into.new) }
    ensures status { result.status ≡ (outcome_in into.new).status }
    ensures size { I.size disk.new ≡ I.size disk.old }
{
    let header = header_of(bytes);
    let payload = &bytes[Header::LEN..];
    let end = into.len() - 1;
    let outcome = carry_out(disk, device, &header, payload, &mut into[..end]);
    let status = outcome.status.number();
    into[end] = status;
    Executed {
        status,
        failed: outcome.failed,
    }
}
