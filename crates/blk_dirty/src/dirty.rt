//! The dirty sectors.

ghost use Rattle.std.specs.Prelude.{◌≡◌, ◌<◌, ◌≤◌, ◌+◌, ◌-◌, ◌/◌, ◌*◌, ◌==◌, ℕ, List, Option, Some, None, IfOk, IfSome, IfNone, IsSome, is_some, if◌then◌else◌, length, slice_index_or, vec_capacity};
ghost use Rattle.std.specs.Option.{option_map, unwrap_or};
ghost use Rattle.vd_io.specs.Sectors.{IsSpan};
ghost use Rattle.blk_disk.specs.Contents.{joined};
ghost use Rattle.blk_dirty.specs.Dirty.{DirtyLines, bytes_at, with_bytes, clean, mark, marked, with_pieces, AreLines, over, piece};

use crate::line::Line;
use std::alloc::{AllocError, Global};
use std::marker::Model;

/// The bytes of a sector.
const SECTOR_SIZE: usize = 512;

/// The dirty sectors of a disk, each with its bytes. A sector is looked up by its number, in one step.
///
/// All memory is taken when it is made: `spare` has the lines of the sectors that aren't dirty yet.
#[derive(Drop)]
pub struct Dirty {
    lines: Vec<Option<Line>>,
    spare: Vec<Line>,
    room: u64,
}

impl Model for Dirty {
    ghost use Rattle.std.specs.Prelude.{◌-◌, length, vec_capacity};
    ghost use Rattle.blk_dirty.specs.Dirty.{DirtyLines, IsSound};

    ghost Value = { DirtyLines };

    ghost view = { λ d. record { lines = d.lines.items; len = d.room - length d.spare.items; room = d.room } };

    ghost invariant = { λ d. IsSound
        (record { lines = d.lines.items; len = d.room - length d.spare.items; room = d.room })
        (length d.spare.items) (vec_capacity d.spare) };
}

/// No line for each of so many sectors.
fn no_lines(alloc: Global, sectors: u64) -> Result<Vec<Option<Line>>, AllocError>
    ensures none { IfOk result (λ lines. (s : ℕ) → slice_index_or lines.items s None ≡ None) }
    ensures count { IfOk result (λ lines. length lines.items ≡ sectors) }
{
    let mut lines = Vec::with_capacity(alloc, sectors as usize)?;
    for _ in 0..sectors {
        lines.push(None)?;
    }
    Ok(lines)
}

/// So many lines that can be used.
fn spare_lines(alloc: Global, room: u64) -> Result<Vec<Line>, AllocError>
    ensures count { IfOk result (λ lines. length lines.items ≡ room) }
    ensures capacity { IfOk result (λ lines. room ≤ vec_capacity lines) }
{
    let mut lines = Vec::with_capacity(alloc, room as usize)?;
    for _ in 0..room {
        lines.push(Line::new(alloc)?)?;
    }
    Ok(lines)
}

/// The place of the first line that is there.
fn next_line(lines: &[Option<Line>]) -> Option<usize>
    ensures some { IfSome result (λ at. (at < length lines.now) × IsSome (slice_index_or lines.now at None)) }
    ensures none { IfNone result ((s : ℕ) → slice_index_or lines.now s None ≡ None) }
{
    for (at, line) in lines.iter().enumerate() {
        if line.is_some() {
            return Some(at);
        }
    }
    None
}

/// The line that had the sector's bytes, or a spare one.
fn line_for(old: Option<Line>, spare: &mut Vec<Line>) -> Line
    requires { old ≡ None → 0 < length spare.old.items }
    ensures spare { length spare.new.items + (1 - mark old) ≡ length spare.old.items }
    ensures capacity { vec_capacity spare.new ≡ vec_capacity spare.old }
{
    match old {
        Some(line) => line,
        None => spare.pop().unwrap(),
    }
}

/// Puts a line to the spare ones.
fn give_back(line: Line, spare: &mut Vec<Line>)
    requires { length spare.old.items < vec_capacity spare.old }
    ensures spare { length spare.new.items ≡ length spare.old.items + 1 }
    ensures capacity { vec_capacity spare.old ≤ vec_capacity spare.new }
{
    spare.push(line).unwrap();
}

/// Puts the bytes of a line, where there is one, over a piece.
fn copy_line(line: Option<&[u8]>, piece: &mut [u8])
    requires { IfSome line (λ b. length b.now ≡ length piece.old) }
    ensures { piece.new ≡ unwrap_or (option_map (λ b. b.now) line.entry) piece.old }
{
    if let Some(bytes) = line {
        piece.copy_from_slice(bytes);
    }
}

#[tactic(auto, unfolding(crate::specs::Dirty::bytes_at))]
impl Dirty {
    /// None of a disk's sectors is dirty, and so many may be.
    pub fn new(alloc: Global, sectors: u64, room: u64) -> Result<Dirty, AllocError>
        ensures none { IfOk result (λ d. (s : ℕ) → bytes_at d s ≡ None) }
        ensures len { IfOk result (λ d. d.len ≡ 0) }
        ensures sectors { IfOk result (λ d. length d.lines ≡ sectors) }
        ensures room { IfOk result (λ d. d.room ≡ room) }
    {
        Ok(Dirty {
            lines: no_lines(alloc, sectors)?,
            spare: spare_lines(alloc, room)?,
            room,
        })
    }

    /// How many sectors are dirty.
    pub fn len(&self) -> u64
        ensures len { result ≡ self.now.len }
        ensures count { result ≡ marked (bytes_at self.now) (length self.now.lines) }
        ensures room { result ≤ self.now.room }
    {
        self.room - self.spare.len() as u64
    }

    /// How many sectors the disk has.
    pub fn sectors(&self) -> u64
        ensures sectors { result ≡ length self.now.lines }
        ensures whole { AreLines (bytes_at self.now) }
    {
        self.lines.len() as u64
    }

    /// How many sectors may be dirty.
    pub fn room(&self) -> u64
        ensures { result ≡ self.now.room }
    {
        self.room
    }

    /// The bytes of a sector, if it is dirty.
    pub fn get(&self, sector: u64) -> Option<&[u8]>
        requires { sector < length self.now.lines }
        ensures bytes { option_map (λ b. b.now) result ≡ bytes_at self.now sector }
        ensures whole { IfSome result (λ b. length b.now ≡ 512) }
    {
        match &self.lines[sector as usize] {
            Some(line) => Some(line.as_slice()),
            None => None,
        }
    }

    /// Makes a sector dirty, with these bytes.
    pub fn put(&mut self, sector: u64, bytes: &[u8])
        requires inside { sector < length self.old.lines }
        requires whole { length bytes.now ≡ 512 }
        requires fits { bytes_at self.old sector ≡ None → self.old.len < self.old.room }
        ensures bytes { (s : ℕ) →
            bytes_at self.new s ≡ with_bytes sector (Some bytes.now) (bytes_at self.old) s }
        ensures len { self.new.len ≡ self.old.len + (1 - mark (bytes_at self.old sector)) }
        ensures room { self.new.room ≡ self.old.room }
        ensures sectors { length self.new.lines ≡ length self.old.lines }
    {
        let at = sector as usize;
        let old = self.lines[at].take();
        let mut line = line_for(old, &mut self.spare);
        line.fill(bytes);
        self.lines[at] = Some(line);
    }

    /// Makes a sector clean.
    pub fn remove(&mut self, sector: u64)
        requires inside { sector < length self.old.lines }
        ensures bytes { (s : ℕ) → bytes_at self.new s ≡ with_bytes sector None (bytes_at self.old) s }
        ensures len { self.new.len + mark (bytes_at self.old sector) ≡ self.old.len }
        ensures room { self.new.room ≡ self.old.room }
        ensures sectors { length self.new.lines ≡ length self.old.lines }
    {
        if let Some(line) = self.lines[sector as usize].take() {
            give_back(line, &mut self.spare);
        }
    }

    /// 1 where the sector isn't dirty.
    fn clean_one(&self, sector: u64) -> u64
        requires { sector < length self.now.lines }
        ensures { result ≡ 1 - mark (bytes_at self.now sector) }
    {
        match self.lines[sector as usize] {
            Some(_) => 0,
            None => 1,
        }
    }

    /// How many of so many sectors from this one on aren't dirty.
    pub fn clean(&self, first: u64, count: u64) -> u64
        requires { first + count ≤ length self.now.lines }
        ensures clean { result ≡ clean (bytes_at self.now) first count }
        ensures fits { self.now.len + result ≤ length self.now.lines }
        ensures whole { AreLines (bytes_at self.now) }
    {
        let _ = &self.lines;
        let mut clean = 0;
        for i in 0..count {
            clean += self.clean_one(first + i);
        }
        clean
    }

    /// Makes whole sectors dirty from this one on, with these bytes.
    pub fn put_all(&mut self, first: u64, bytes: &[u8])
        requires inside { IsSpan (length self.old.lines) first (length bytes.now) }
        requires fits { self.old.len + clean (bytes_at self.old) first (length bytes.now / 512) ≤
            self.old.room }
        ensures bytes { (s : ℕ) →
            bytes_at self.new s ≡ with_pieces first (length bytes.now / 512) bytes.now
            (bytes_at self.old) s }
        ensures len { self.new.len ≤ self.old.len + clean (bytes_at self.old) first (length bytes.now / 512) }
        ensures room { self.new.room ≡ self.old.room }
        ensures sectors { length self.new.lines ≡ length self.old.lines }
    {
        let _ = &self.lines;
        for i in 0..bytes.len() / SECTOR_SIZE {
            let at = i * SECTOR_SIZE;
            self.put(first + i as u64, &bytes[at..at + SECTOR_SIZE]);
        }
    }

    /// Puts the bytes of the dirty sectors over those of whole sectors from this one on.
    pub fn copy_over(&self, first: u64, into: &mut [u8])
        requires { IsSpan (length self.now.lines) first (length into.old) }
        ensures { into.new ≡ joined (over (bytes_at self.now) (piece first into.old)) first
            (length into.old / 512) }
    {
        let _ = &self.lines;
        for i in 0..into.len() / SECTOR_SIZE {
            let at = i * SECTOR_SIZE;
            copy_line(self.get(first + i as u64), &mut into[at..at + SECTOR_SIZE]);
        }
    }

    /// The first dirty sector from this one on, and else the first of all.
    pub fn next(&self, from: u64) -> Option<u64>
        requires { from ≤ length self.now.lines }
        ensures some { IfSome result (λ s. (s < length self.now.lines) × IsSome (bytes_at self.now s)) }
        ensures none { IfNone result (self.now.len ≡ 0) }
    {
        let from = from as usize;
        if let Some(at) = next_line(&self.lines[from..]) {
            return Some((from + at) as u64);
        }
        match next_line(&self.lines) {
            Some(at) => Some(at as u64),
            None => None,
        }
    }
}
