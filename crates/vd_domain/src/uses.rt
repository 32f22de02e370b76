//! How many live mappings meet each page.

ghost use Rattle.std.specs.Prelude.{◌≡◌, ◌+◌, ◌-◌, ◌<◌, ◌≤◌, ◌^◌, ℕ, nat_lt, if◌then◌else◌, length, replicate, slice_index, slice_index_or, false, true, IfOk};
ghost use Rattle.vd_num.specs.Number.{is_within};

use crate::pages::Pages;
use std::alloc::{AllocError, Global};
use std::marker::Model;

/// For each page, how many live mappings meet it, and whether one does.
#[derive(Drop)]
pub struct Uses {
    counts: Vec<u64>,
    in_use: Vec<bool>,
}

impl Model for Uses {
    ghost use Rattle.std.specs.Prelude.{ℕ, List};
    ghost use Rattle.vd_domain.specs.Used.{AreFlags};

    ghost Value = { List ℕ };

    ghost view = { λ u. u.counts.items };

    ghost invariant = { λ u. AreFlags u.counts.items u.in_use.items };
}

impl Uses {
    /// So many pages, none of them in use.
    pub fn new(alloc: Global, pages: usize) -> Result<Uses, AllocError>
        ensures { IfOk result (λ u. u ≡ replicate pages 0) }
    {
        Ok(Uses {
            counts: vec![in alloc; 0; pages]?,
            in_use: vec![in alloc; false; pages]?,
        })
    }

    /// Counts one more mapping that meets some pages.
    pub fn enter(&mut self, pages: Pages)
        requires range { pages.first + pages.count ≤ length self.old }
        requires few { (p : ℕ) → slice_index self.old p < 2 ^ 63 }
        ensures counts { (p : ℕ) →
            slice_index self.new p
            ≡ (if is_within pages.first pages.count p
            then slice_index self.old p + 1 else slice_index self.old p) }
        ensures len { length self.new ≡ length self.old }
    {
        let _ = &self.counts;
        for page in pages.first..pages.first + pages.count {
            self.counts[page] += 1;
            self.in_use[page] = true;
        }
    }

    /// Counts one mapping fewer that meets some pages.
    pub fn leave(&mut self, pages: Pages)
        requires range { pages.first + pages.count ≤ length self.old }
        requires some { (p : ℕ) → is_within pages.first pages.count p ≡ true → 0 < slice_index self.old p }
        ensures counts { (p : ℕ) →
            slice_index self.new p
            ≡ (if is_within pages.first pages.count p
            then slice_index self.old p - 1 else slice_index self.old p) }
        ensures len { length self.new ≡ length self.old }
    {
        let _ = &self.counts;
        for page in pages.first..pages.first + pages.count {
            self.counts[page] -= 1;
            self.in_use[page] = self.counts[page] > 0;
        }
    }

    /// Which pages are in use.
    pub fn in_use(&self) -> &[bool]
        ensures len { length result.now ≡ length self.now }
        ensures flags { (p : ℕ) → slice_index_or result.now p false ≡ nat_lt 0 (slice_index self.now p) }
    {
        &self.in_use
    }
}
