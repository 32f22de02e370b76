//! The memory of one frame.

ghost use Rattle.std.specs.Prelude.{◌≡◌, ◌+◌, ◌-◌, ◌≤◌, ◌<◌, ℕ, IfOk, length, slice_index, if◌then◌else◌, take, drop};
ghost use Rattle.vd_num.specs.Number.{is_within};

use std::alloc::{AllocError, Global};
use std::marker::Model;

/// The bytes of one frame, seen as a list.
#[derive(Drop)]
pub struct Page {
    bytes: Vec<u8>,
}

impl Model for Page {
    ghost use Rattle.std.specs.Prelude.{List, ℕ};

    ghost Value = { List ℕ };

    ghost view = { λ p. p.bytes.items };
}

impl Page {
    /// A page of so many zero bytes.
    pub fn new(alloc: Global, size: usize) -> Result<Page, AllocError>
        ensures zeros { IfOk result (λ p. (i : ℕ) → slice_index p i ≡ 0) }
        ensures size { IfOk result (λ p. length p ≡ size) }
    {
        Ok(Page {
            bytes: vec![in alloc; 0; size]?,
        })
    }

    /// Makes every byte zero.
    pub fn clear(&mut self)
        ensures zeros { (i : ℕ) → slice_index self.new i ≡ 0 }
        ensures size { length self.new ≡ length self.old }
    {
        self.bytes.fill(0);
    }

    /// Fills a slice with the bytes from an index on.
    pub fn read(&self, at: usize, out: &mut [u8])
        requires { at + length out.old ≤ length self.now }
        ensures { out.new ≡ take (length out.old) (drop at self.now) }
    {
        let n = out.len();
        out.copy_from_slice(&self.bytes[at..at + n]);
    }

    /// Writes bytes from an index on.
    pub fn write(&mut self, at: usize, bytes: &[u8])
        requires { at + length bytes.now ≤ length self.old }
        ensures bytes { (i : ℕ) → slice_index self.new i
            ≡ (if is_within at (length bytes.now) i then slice_index bytes.now (i - at) else slice_index self.old i) }
        ensures size { length self.new ≡ length self.old }
    {
        self.bytes[at..at + bytes.len()].copy_from_slice(bytes);
    }
}
