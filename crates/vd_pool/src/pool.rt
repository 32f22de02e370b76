//! A pool of frames, which all devices share.

ghost use Rattle.std.specs.Prelude.{◌≡◌, ◌+◌, ◌-◌, ◌*◌, ◌<◌, ◌≤◌, ◌==◌, ◌||◌, ℕ, true, false, OnOk, OnErr, IfOk, length, slice_index};
ghost use Rattle.vd_pool.specs.Memory.{PoolMemory, frame_size, is_out, byte_of, Takes, Gives, Writes, Clears, Grows, Adds};

use crate::page::Page;
use std::alloc::{AllocError, Global};
use std::marker::Model;
use vd_num::SLOT_SIZE;

/// A frame that was taken from a pool. It can't be dropped: it has to be given back.
pub struct Frame {
    number: usize,
}

impl Model for Frame {
    ghost use Rattle.std.specs.Prelude.{ℕ};

    ghost Value = { ℕ };

    ghost view = { λ f. f.number };
}

/// Frames of `4096 * per_page` bytes each. Their memory stays here when they are given back.
///
/// `order` has each frame's number once: the first `spare` of them can be taken, and the others are out.
/// `place` is where a frame stands in `order`, so both `take` and `give` are a few steps.
#[derive(Drop)]
pub struct Pool {
    alloc: Global,
    per_page: u32,
    pages: Vec<Page>,
    order: Vec<usize>,
    place: Vec<usize>,
    spare: usize,
}

impl Model for Pool {
    ghost use Rattle.vd_pool.specs.Memory.{PoolMemory, IsSound};

    ghost Value = { PoolMemory };

    ghost view = { λ p. record {
      frames = p.pages.items;
      place = p.place.items;
      spare = p.spare;
      per_page = p.per_page;
    } };

    ghost invariant = { λ p. IsSound
        (record {
          frames = p.pages.items;
          place = p.place.items;
          spare = p.spare;
          per_page = p.per_page;
        }) p.order.items };
}

#[tactic(auto, unfolding(crate::specs::Memory::is_out, crate::specs::Memory::byte_of))]
impl Pool {
    /// A pool with no frame, for frames of `per_page` slots.
    pub fn new(alloc: Global, per_page: u32) -> Pool
        ensures spare { result.spare ≡ 0 }
        ensures none { (f : ℕ) → is_out result f ≡ false }
        ensures size { result.per_page ≡ per_page }
    {
        Pool {
            alloc,
            per_page,
            pages: Vec::new(alloc),
            order: Vec::new(alloc),
            place: Vec::new(alloc),
            spare: 0,
        }
    }

    /// How many frames can be taken.
    pub fn spare(&self) -> u64
        ensures { result ≡ self.now.spare }
    {
        self.spare as u64
    }

    /// How many slots a frame has.
    pub fn per_page(&self) -> u32
        ensures { result ≡ self.now.per_page }
    {
        self.per_page
    }

    /// Makes so many frames that at least `n` can be taken. Those that are out aren't touched.
    pub fn reserve(&mut self, n: u64) -> Result<(), AllocError>
        ensures ok { OnOk result (n ≤ self.new.spare) }
        ensures grows { Grows self.old self.new }
    {
        while self.spare() < n {
            self.grow()?;
        }
        Ok(())
    }

    /// Makes one more frame that can be taken.
    fn grow(&mut self) -> Result<(), AllocError>
        ensures ok { OnOk result (self.new.spare ≡ self.old.spare + 1) }
        ensures grows { Grows self.old self.new }
    {
        let frame = self.make()?;
        self.give(frame);
        Ok(())
    }

    /// Makes a frame that is out.
    fn make(&mut self) -> Result<Frame, AllocError>
        ensures ok { IfOk result (λ f. Adds f self.old self.new) }
        ensures err { OnErr result (self.new ≡ self.old) }
    {
        let page = Page::new(self.alloc, SLOT_SIZE as usize * self.per_page as usize)?;
        let number = self.pages.len();
        self.order.reserve(1)?;
        self.place.reserve(1)?;
        self.pages.push(page)?;
        self.order.push(number)?;
        self.place.push(number)?;
        Ok(Frame { number })
    }

    /// Takes a frame that isn't out. Its bytes are zero.
    pub fn take(&mut self) -> Frame
        requires { 0 < self.old.spare }
        ensures { Takes result self.old self.new }
    {
        let frame = self.next();
        self.clear(&frame);
        frame
    }

    /// Takes a frame that isn't out, with the bytes that it had.
    fn next(&mut self) -> Frame
        requires { 0 < self.old.spare }
        ensures spare { self.new.spare + 1 ≡ self.old.spare }
        ensures fresh { is_out self.old result ≡ false }
        ensures out { (f : ℕ) → is_out self.new f ≡ ((f == result) || is_out self.old f) }
        ensures bytes { (f i : ℕ) → byte_of self.new f i ≡ byte_of self.old f i }
        ensures size { self.new.per_page ≡ self.old.per_page }
    {
        self.spare -= 1;
        Frame {
            number: self.order[self.spare],
        }
    }

    /// Makes every byte of a frame zero.
    fn clear(&mut self, frame: &Frame)
        requires { is_out self.old frame.now ≡ true }
        ensures { Clears frame.now self.old self.new }
    {
        let page = &mut self.pages[frame.number];
        page.clear();
    }

    /// Gives a frame back. It can be taken again.
    pub fn give(&mut self, frame: Frame)
        requires { is_out self.old frame ≡ true }
        ensures { Gives frame self.old self.new }
    {
        let Frame { number } = frame;
        let spare = self.spare;
        let from = self.place[number];
        let other = self.order[spare];
        self.order[from] = other;
        self.place[other] = from;
        self.order[spare] = number;
        self.place[number] = spare;
        self.spare = spare + 1;
    }

    /// Fills a slice with a frame's bytes from an index on.
    pub fn read(&self, frame: &Frame, at: usize, out: &mut [u8])
        requires out { is_out self.now frame.now ≡ true }
        requires at { at + length out.old ≤ frame_size self.now }
        ensures { (i : ℕ) → i < length out.old → slice_index out.new i ≡ byte_of self.now frame.now (at + i) }
    {
        let page = &self.pages[frame.number];
        page.read(at, out);
    }

    /// Writes bytes into a frame from an index on.
    pub fn write(&mut self, frame: &Frame, at: usize, bytes: &[u8])
        requires out { is_out self.old frame.now ≡ true }
        requires at { at + length bytes.now ≤ frame_size self.old }
        ensures { Writes frame.now at bytes.now self.old self.new }
    {
        let page = &mut self.pages[frame.number];
        page.write(at, bytes);
    }
}
