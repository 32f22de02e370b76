//! Buffers by their numbers.

ghost use Rattle.std.specs.Prelude.{◌≡◌, ◌+◌, ◌-◌, ◌<◌, ◌≤◌, ◌^◌, ◌↔◌, ℕ, List, ◌∷◌, [], length, take, slice_index, if◌then◌else◌, Some, None, IsTrue, IfOk, OnErr, MatchResult, is_some, true, slice_set};
ghost use Rattle.vd_num.specs.Number.{is_within};
ghost use Rattle.vd_model.specs.Acts.{Act, Driver, Buffer as BufferAct, Zeroed, Freed, Poked};
ghost use Rattle.vd_model.specs.DriverTurns.{buffer_limit};
ghost use Rattle.vd_model.specs.Live as model;
ghost use Rattle.vd_model.specs.Puts.{ram_bytes};
ghost use Rattle.vd_model.specs.Turn.{range_refusal};
ghost use Rattle.vd_buffers.specs.Places.{place_of, total_of, IsRange};
ghost use Rattle.vd_buffers.specs.Places as places;

use crate::buffer::Buffer;
use std::alloc::{AllocError, Global};
use std::marker::Model;
use vd_num::Errno;

/// How many bytes the buffers of a device may have together.
pub const LIMIT: u64 = 67_108_864;

/// The buffers of a driver. A freed one leaves an empty place, since its number isn't given out again.
#[derive(Drop)]
pub struct Buffers {
    alloc: Global,
    places: Vec<Option<Buffer>>,
    total: u64,
}

impl Model for Buffers {
    ghost use Rattle.vd_buffers.specs.Places.{Places, IsFit};

    ghost Value = { Places };

    ghost view = { λ b. b.places.items };

    ghost invariant = { λ b. IsFit b.total b.places.items };
}

impl Buffers {
    ghost use Rattle.vd_buffers.specs.Stands.{Stands};

    /// No buffers.
    pub fn new(alloc: Global) -> Buffers
        ensures { (g : ℕ) → Stands g [] result }
    {
        Buffers {
            alloc,
            places: Vec::new(alloc),
            total: 0,
        }
    }

    /// How many were made, freed ones among them: the number of the next one.
    pub fn count(&self) -> u64
        ensures count { result ≡ length self.now }
        ensures few { result < 2 ^ 62 }
    {
        self.places.as_slice().len() as u64
    }

    /// Whether they may have so many bytes more.
    pub fn has_room(&self, len: u64) -> bool
        ensures { IsTrue result ↔ (total_of self.now + len ≤ buffer_limit) }
    {
        len <= LIMIT - self.total
    }

    /// How many bytes a buffer has, if it is there.
    pub fn len_of(&self, buffer: u64) -> Option<u64>
        ensures { result ≡ places.len_of self.now buffer }
    {
        match self.places.get(buffer as usize) {
            Some(Some(buffer)) => Some(buffer.as_slice().len() as u64),
            _ => None,
        }
    }

    /// Adds a buffer of these bytes, and answers its number.
    pub fn add(&mut self, bytes: &[u8]) -> Result<u64, AllocError>
        requires { total_of self.old + length bytes.now ≤ buffer_limit }
        ensures ok { (g : ℕ) (acts : List Act) → Stands g acts self.old → IfOk result (λ number.
            (number ≡ model.buffers acts) × Stands g (Driver (BufferAct bytes.now) ∷ acts) self.new) }
        ensures err { OnErr result (self.new ≡ self.old) }
    {
        let number = self.places.len() as u64;
        let buffer = Buffer::from_vec(Vec::from_slice(self.alloc, bytes)?);
        self.places.push(Some(buffer))?;
        self.total += bytes.len() as u64;
        Ok(number)
    }

    /// Adds a buffer of zeros, and answers its number.
    pub fn zeros(&mut self, len: u64) -> Result<u64, AllocError>
        requires { total_of self.old + len ≤ buffer_limit }
        ensures ok { (g : ℕ) (acts : List Act) → Stands g acts self.old → IfOk result (λ number.
            (number ≡ model.buffers acts) × Stands g (Driver (Zeroed len) ∷ acts) self.new) }
        ensures err { OnErr result (self.new ≡ self.old) }
    {
        let number = self.places.len() as u64;
        let buffer = Buffer::from_vec(vec![in self.alloc; 0; len as usize]?);
        self.places.push(Some(buffer))?;
        self.total += len;
        Ok(number)
    }

    /// Frees a buffer.
    pub fn free(&mut self, buffer: u64)
        requires { is_some (place_of self.old buffer) ≡ true }
        ensures { (g : ℕ) (acts : List Act) → Stands g acts self.old →
            Stands g (Driver (Freed buffer) ∷ acts) self.new }
    {
        let _bytes = self.lend(buffer);
    }

    /// The bytes of a range, or why there is none: there is no such buffer, or it is empty or not within the buffer.
    pub fn range(&self, buffer: u64, offset: u64, len: u64) -> Result<&[u8], Errno>
        ensures bytes { (g : ℕ) (acts : List Act) → Stands g acts self.now → MatchResult result
            (λ text. (range_refusal (model.buffer_len acts buffer) offset len ≡ None)
            × (text.now ≡ ram_bytes g acts buffer offset len))
            (λ errno. range_refusal (model.buffer_len acts buffer) offset len ≡ Some errno) }
        ensures lies { IfOk result (λ text. IsRange self.now buffer offset len text.now) }
    {
        let bytes = match self.places.get(buffer as usize) {
            Some(Some(buffer)) => buffer.as_slice(),
            _ => return Err(Errno::Noent),
        };
        if len == 0 || offset > bytes.len() as u64 || len > bytes.len() as u64 - offset {
            return Err(Errno::Inval);
        }
        Ok(&bytes[offset as usize..(offset + len) as usize])
    }

    /// Writes bytes into a buffer, or answers why not, as for a range.
    pub fn poke(&mut self, buffer: u64, offset: u64, bytes: &[u8]) -> Result<(), Errno>
        ensures ok { (g : ℕ) (acts : List Act) → Stands g acts self.old → MatchResult result
            (λ _. (range_refusal (model.buffer_len acts buffer) offset (length bytes.now) ≡ None)
            × Stands g (Driver (Poked buffer offset bytes.now) ∷ acts) self.new)
            (λ errno. range_refusal (model.buffer_len acts buffer) offset (length bytes.now) ≡ Some errno) }
        ensures err { OnErr result (self.new ≡ self.old) }
    {
        if let Err(errno) = self.range(buffer, offset, bytes.len() as u64) {
            return Err(errno);
        }
        let mut held = self.take(buffer);
        held.write(offset as usize, bytes);
        self.put(buffer, held);
        Ok(())
    }

    /// Takes the newest buffer back, as if it had never been made: its number is given out again.
    pub fn take_back(&mut self)
        requires { 0 < length self.old }
        ensures { self.new ≡ take (length self.old - 1) self.old }
    {
        match self.places.pop() {
            Some(Some(buffer)) => self.total -= buffer.as_slice().len() as u64,
            Some(None) => {}
            None => unreachable!(),
        }
    }

    /// Lends the bytes of a buffer out: it isn't there until they are given back.
    pub fn lend(&mut self, buffer: u64) -> Vec<u8>
        requires { is_some (place_of self.old buffer) ≡ true }
        ensures bytes { place_of self.old buffer ≡ Some result.items }
        ensures rest { self.new ≡ slice_set self.old buffer None }
        ensures room { total_of self.new + length result.items ≤ buffer_limit }
    {
        self.take(buffer).into_vec()
    }

    /// Takes the bytes of a buffer back that was lent out.
    pub fn give(&mut self, buffer: u64, bytes: Vec<u8>)
        requires below { buffer < length self.old }
        requires gone { place_of self.old buffer ≡ None }
        requires room { total_of self.old + length bytes.items ≤ buffer_limit }
        ensures { self.new ≡ slice_set self.old buffer (Some bytes.items) }
    {
        self.put(buffer, Buffer::from_vec(bytes));
    }

    fn take(&mut self, buffer: u64) -> Buffer
        requires { is_some (place_of self.old buffer) ≡ true }
        ensures bytes { place_of self.old buffer ≡ Some result }
        ensures rest { self.new ≡ slice_set self.old buffer None }
        ensures room { total_of self.new + length result ≤ buffer_limit }
    {
        match self.places[buffer as usize].take() {
            Some(held) => {
                self.total -= held.as_slice().len() as u64;
                held
            }
            None => unreachable!(),
        }
    }

    fn put(&mut self, buffer: u64, held: Buffer)
        requires below { buffer < length self.old }
        requires gone { place_of self.old buffer ≡ None }
        requires room { total_of self.old + length held ≤ buffer_limit }
        ensures { self.new ≡ slice_set self.old buffer (Some held) }
    {
        self.total += held.as_slice().len() as u64;
        self.places[buffer as usize] = Some(held);
    }
}
