//! The parts of an access: each lies in one region.

ghost use Rattle.std.specs.Prelude.{◌≡◌, ◌+◌, ◌-◌, ◌%◌, ◌^◌, ◌<◌, ◌≤◌, ℕ, List, IfSome, IfOk, length, take, drop, slice_index, unwrap_or, if◌then◌else◌};
ghost use Rattle.vd_num.specs.Number.{is_within};
ghost use Rattle.vd_model.specs.AreaTurns.{first_region};
ghost use Rattle.vd_model.specs.Puts.{byte_in, each_from};
ghost use Rattle.vd_model.specs.declared.memory.Region.{Region as Span};
ghost use Rattle.vd_vhost_model.specs.GuestTable.{first_denial, permits};
ghost use Rattle.vd_guest.specs.Kept.{AreWithin, StandsFor};
ghost use Rattle.vd_guest.specs.Parts.{IsFirstPart, Loads, Stores};

use std::alloc::AllocError;
use vd_model::Region;
use vd_num::Range;
use vd_regions::Regions;
use vd_vhost_model::{Access, Denied};

/// A part of an access: its first byte in the guest's memory, and how many bytes it has.
#[derive(Clone, Copy)]
pub struct Part {
    pub offset: usize,
    pub len: usize,
}

/// The region that holds an address.
fn holder(regions: &Regions, size: usize, at: u64) -> Option<Region>
    requires { AreWithin size regions.now }
    ensures found { result ≡ first_region regions.now at at }
    ensures holds { IfSome result (λ r. (r.start ≤ at) × (at ≤ r.last)) }
    ensures within { IfSome result (λ r. r.offset + (r.last - r.start) < size) }
{
    regions.first(Range {
        start: at,
        last: at,
    })
}

/// Whether a region permits an access.
fn permits(region: &Region, access: Access) -> bool
    ensures { result ≡ permits access region.now }
{
    region.perm & access.bit() != 0
}

/// How many of `left` addresses from `at` on are at most `last`.
fn len_within(at: u64, last: u64, left: u64) -> usize
    requires order { at ≤ last }
    requires some { 0 < left }
    ensures some { 0 < result }
    ensures few { result ≤ left }
    ensures last { at + result ≤ last + 1 }
    ensures short { at + result ≤ 2 ^ 64 }
{
    (left - 1).min(last - at) as usize + 1
}

/// The address behind `len` addresses; the last one is followed by 0.
fn past(at: u64, len: usize) -> u64
    ensures { result ≡ (at + len) % 2 ^ 64 }
{
    at.wrapping_add(len as u64)
}

/// The first part of an access to `left` addresses from `at` on, in a memory of `size` bytes.
pub fn first_part(
    regions: &Regions,
    size: usize,
    access: Access,
    at: u64,
    left: u64,
) -> Result<Part, Denied>
    requires some { 0 < left }
    requires within { AreWithin size regions.now }
    ensures part { (given : List Span) → StandsFor given regions.now →
        IsFirstPart given access at left result }
    ensures inside { IfOk result
        (λ part. (0 < part.len) × (part.len ≤ left) × (part.offset + part.len ≤ size)) }
{
    let Some(region) = holder(regions, size, at) else {
        return Err(Denied::Bus { at });
    };
    if !permits(&region, access) {
        return Err(Denied::Perm { at });
    }
    Ok(Part {
        offset: (region.offset + (at - region.start)) as usize,
        len: len_within(at, region.last, left),
    })
}

/// What denies an access to `len` addresses from `at` on, at the first of them that fails.
pub fn denial(regions: &Regions, size: usize, access: Access, at: u64, len: u64) -> Option<Denied>
    requires { AreWithin size regions.now }
    ensures { (given : List Span) → StandsFor given regions.now → result ≡ first_denial given access at len }
{
    let mut next = at;
    let mut left = len;
    while left > 0 {
        match first_part(regions, size, access, next, left) {
            Err(why) => return Some(why),
            Ok(part) => {
                next = past(next, part.len);
                left -= part.len as u64;
            }
        }
    }
    None
}

/// The bytes from `offset` on.
fn cut(memory: &[u8], offset: usize, len: usize) -> &[u8]
    requires { offset + len ≤ length memory.now }
    ensures { result.now ≡ take len (drop offset memory.now) }
{
    &memory[offset..offset + len]
}

/// The bytes from `offset` on, each of them as `f` has it.
pub fn bytes_of(memory: &[u8], offset: usize, len: usize) -> &[u8]
    requires { offset + len ≤ length memory.now }
    ensures { (f : ℕ → ℕ) → ((o : ℕ) → slice_index memory.now o ≡ f o) → result.now ≡ each_from f offset len }
{
    cut(memory, offset, len)
}

/// Adds the bytes that `len` addresses from `at` on show, or tells what denies the access.
pub fn load(
    regions: &Regions,
    memory: &[u8],
    at: u64,
    len: u64,
    into: &mut Vec<u8>,
) -> Result<Option<Denied>, AllocError>
    requires { AreWithin (length memory.now) regions.now }
    ensures { (given : List Span) → StandsFor given regions.now →
        IfOk result (λ told. Loads given memory.now at len into.old.items into.new.items told) }
{
    let mut next = at;
    let mut left = len;
    while left > 0 {
        match first_part(regions, memory.len(), Access::Read, next, left) {
            Err(why) => return Ok(Some(why)),
            Ok(part) => {
                into.extend_from_slice(bytes_of(memory, part.offset, part.len))?;
                next = past(next, part.len);
                left -= part.len as u64;
            }
        }
    }
    Ok(None)
}

/// Copies bytes over those from `offset` on.
fn overwrite(memory: &mut [u8], offset: usize, bytes: &[u8])
    requires { offset + length bytes.now ≤ length memory.old }
    ensures { (i : ℕ) → slice_index memory.new i
        ≡ (if is_within offset (length bytes.now) i then slice_index bytes.now
        (i - offset) else slice_index memory.old i) }
{
    memory[offset..offset + bytes.len()].copy_from_slice(bytes);
}

/// Writes bytes from `offset` on.
pub fn write(memory: &mut [u8], offset: usize, bytes: &[u8])
    requires { offset + length bytes.now ≤ length memory.old }
    ensures { (o : ℕ) → slice_index memory.new o
        ≡ unwrap_or (byte_in bytes.now offset o) (slice_index memory.old o) }
{
    overwrite(memory, offset, bytes);
}

/// Stores bytes at the addresses from `at` on, an access that nothing denies.
pub fn store(regions: &Regions, memory: &mut [u8], at: u64, bytes: &[u8])
    requires { AreWithin (length memory.old) regions.now }
    ensures { (given : List Span) → StandsFor given regions.now →
        Stores given at bytes.now memory.old memory.new }
{
    let mut next = at;
    let mut rest = bytes;
    while !rest.is_empty() {
        let left = rest.len() as u64;
        let Ok(part) = first_part(regions, memory.len(), Access::Write, next, left) else {
            return;
        };
        let (piece, after) = rest.split_at(part.len);
        write(memory, part.offset, piece);
        next = past(next, part.len);
        rest = after;
    }
}
