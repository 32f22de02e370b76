//! A live mapping or region, and a value with the note of its entry.
ghost use Rattle.std.specs.Prelude.{◌≡◌, IsTrue};
ghost use Rattle.sh_device.specs.Calls.{HeldView, IsHeld};

use sh_parts::{Dir, Naming, Note};
use std::marker::Model;

/// What a call on a journal answered, with the note of its entry.
#[derive(Drop)]
pub struct Noted<T: Drop, N: Naming> {
    pub value: T,
    pub note: Note<N>,
}

/// A live mapping or coherent region. It keeps the note of its entry, and in contracts it is what
/// that entry says, beside the stamp of its bytes.
#[derive(Drop)]
pub struct Held<N: Naming> {
    pub(crate) note: Note<N>,
    pub(crate) number: u64,
    pub(crate) iova: u64,
    pub(crate) len: u64,
    pub(crate) dir: Dir,
    pub(crate) stamp: u64,
    pub(crate) coherent: bool,
}

impl<N: Naming> Model for Held<N> {
    ghost use Rattle.sh_device.specs.Calls.{HeldView, IsHeld};

    ghost Value = { HeldView };

    ghost view = { λ h. record {
      note = h.note;
      number = h.number;
      iova = h.iova;
      len = h.len;
      dir = h.dir;
      stamp = h.stamp;
      coherent = h.coherent;
    } };

    ghost invariant = { λ h. IsHeld N.numbers
        (record {
          note = h.note;
          number = h.number;
          iova = h.iova;
          len = h.len;
          dir = h.dir;
          stamp = h.stamp;
          coherent = h.coherent;
        }) };
}

impl<N: Naming> Held<N> {
    /// Its number. Mappings and coherent regions are numbered together from 0.
    pub fn number(&self) -> u64
        ensures { result ≡ self.now.number }
    {
        self.number
    }

    /// The I/O virtual address of its first byte, which begins a page.
    pub fn iova(&self) -> u64
        ensures { result ≡ self.now.iova }
    {
        self.iova
    }

    /// Its length in bytes.
    pub fn len(&self) -> u64
        ensures { result ≡ self.now.len }
    {
        self.len
    }

    /// Which way its bytes go: both, for a coherent region.
    pub fn dir(&self) -> Dir
        ensures { result ≡ self.now.dir }
    {
        self.dir
    }

    /// The stamp of the entry of a mapping's bytes, 0 for a coherent region.
    pub fn stamp(&self) -> u64
        ensures { result ≡ self.now.stamp }
    {
        self.stamp
    }

    /// Whether it is a coherent region.
    pub fn is_coherent(&self) -> bool
        ensures { result ≡ self.now.coherent }
    {
        self.coherent
    }

    /// The place of its entry in the domain's journal. What a mapping is stands in that entry.
    pub fn place(&self) -> u64
        ensures place { result ≡ self.now.note.place }
        ensures held { IsHeld N.numbers self.now }
    {
        self.note.place()
    }
}
