//! The memory of the device under its lock, with its journal.
ghost use Rattle.std.specs.Prelude.{◌≡◌, ◌≢◌, ◌≤◌, ◌<◌, ◌-◌, ◌++◌, ◌∷◌, [], reverse, length, IfOk, OnErr};
ghost use mathlib.Core.List.{IsPrefix};
ghost use Rattle.vd_model.specs.Live as acts;
ghost use Rattle.sh_parts.specs.declared.entry.JournalKind.TheVariants as kind;
ghost use Rattle.sh_parts.specs.declared.entry.Entry.TheVariants as entry;
ghost use Rattle.sh_parts.specs.Legal.{domain_acts, domain_turn, IsLegal};
ghost use Rattle.sh_parts.specs.Steps.{IsFront};
ghost use Rattle.sh_parts.specs.Journals.{StateView, NoteView, NewDomainView};

use crate::entry::{DomainAnswer, DomainStep, Entry, JournalKind};
use crate::journal::{Journal, Naming, NewJournal, Note};
use crate::memory::Memory;
use std::alloc::{AllocError, Global};
use std::marker::{Brand, Model};
use std::sync::{Mutex, RwLock};

/// The memory of the device, whether the bounce memory is registered, and the journal of both. In
/// contracts it is the journal's entries and how many of them were noted.
#[derive(Drop)]
pub struct DomainState<N: Naming> {
    journal: Journal<N>,
    memory: Memory,
}

impl<N: Naming> Model for DomainState<N> {
    ghost use Rattle.std.specs.Prelude.{◌≡◌, ◌≤◌, length, reverse};
    ghost use Rattle.sh_parts.specs.declared.entry.JournalKind.TheVariants.{Domain};
    ghost use Rattle.sh_parts.specs.Legal.{domain_acts};
    ghost use Rattle.sh_parts.specs.Memory.{IsSound, Stands};
    ghost use Rattle.sh_parts.specs.Journals.{StateView};

    ghost Value = { StateView };

    ghost view = { λ s. record { entries = s.journal.entries; noted = s.journal.noted } };

    ghost invariant = { λ s. (s.journal.kind ≡ Domain)
        × IsSound s.memory
        × Stands N.numbers (domain_acts N.numbers (reverse s.journal.entries)) s.memory
        × (s.memory.next ≤ length s.journal.entries) };
}

/// The state of the memory under its lock. Registrations hold `switch` for writing, and maps and
/// unmaps hold it for reading.
#[derive(Drop)]
pub struct SharedDomain<N: Naming> {
    pub state: Mutex<DomainState<N>>,
    pub switch: RwLock<()>,
}

/// The memory of a device that has no name yet, with an empty journal. In contracts it is its
/// journal's table and entries, and its two numbers of pages.
#[derive(Drop)]
pub struct NewDomain {
    journal: NewJournal,
    memory: Memory,
}

impl Model for NewDomain {
    ghost use Rattle.std.specs.Prelude.{◌≡◌, ℕ, []};
    ghost use Rattle.sh_parts.specs.declared.entry.JournalKind.TheVariants.{Domain};
    ghost use Rattle.sh_parts.specs.Memory.{IsSound, Stands};
    ghost use Rattle.sh_parts.specs.Journals.{NewDomainView};

    ghost Value = { NewDomainView };

    ghost view = { λ d. record {
      table = d.journal.seat.table_id;
      entries = d.journal.entries.items;
      bounce = d.memory.bounce_pages;
      pages = d.memory.coherent.«end»;
    } };

    ghost invariant = { λ d. (d.journal.kind ≡ Domain)
        × IsSound d.memory
        × ((t : ℕ) → Stands (record {
          bounce = d.memory.bounce_pages;
          pages = d.memory.coherent.«end»;
          timeout = t;
        }) [] d.memory)
        × (d.memory.next ≡ 0) };
}

impl SharedDomain<Brand> {
    /// The memory of a device with so many bounce pages and pages in all, 4,096 bytes each. Nothing
    /// is mapped. It gets its name by `named`.
    pub fn new(alloc: Global, bounce_pages: u32, pages: u32) -> Result<NewDomain, AllocError>
        requires { (2 ≤ bounce_pages) × (bounce_pages < pages) × (pages ≤ 4096) }
        ensures empty { IfOk result (λ d. d.entries ≡ []) }
        ensures numbers { IfOk result (λ d. (d.bounce ≡ bounce_pages) × (d.pages ≡ pages)) }
    {
        Ok(NewDomain {
            journal: NewJournal::new(alloc, JournalKind::Domain)?,
            memory: Memory::new(alloc, bounce_pages, pages)?,
        })
    }
}

impl NewDomain {
    /// The state with its name, whose table and numbers are its own.
    pub fn into_state<N: Naming>(self) -> DomainState<N>
        requires table { self.table ≡ N.domain }
        requires numbers { (self.bounce ≡ N.numbers.bounce) × (self.pages ≡ N.numbers.pages) }
        ensures same { result.entries ≡ self.entries }
        ensures empty { (result.entries ≡ []) × (result.noted ≡ 0) }
    {
        let NewDomain { journal, memory } = self;
        DomainState {
            journal: journal.named(),
            memory,
        }
    }

    /// The state with its name, under its lock.
    pub fn named<N: Naming>(self) -> SharedDomain<N>
        requires table { self.table ≡ N.domain }
        requires numbers { (self.bounce ≡ N.numbers.bounce) × (self.pages ≡ N.numbers.pages) }
    {
        SharedDomain {
            state: Mutex::new(self.into_state()),
            switch: RwLock::new(()),
        }
    }
}

impl<N: Naming> DomainState<N> {
    /// Does a step and appends it with its answer. For want of memory nothing is done.
    pub fn apply(&mut self, step: DomainStep) -> Result<DomainAnswer, AllocError>
        ensures answer { IfOk result
            (λ answer. answer ≡ (domain_turn N.numbers
            (domain_acts N.numbers (reverse self.old.entries)) step).answer) }
        ensures entry { IfOk result
            (λ answer. self.new ≡ record self.old {
              entries = self.old.entries
                  ++ entry.Domain step answer ∷ [];
            }) }
        ensures unnoted { IfOk result (λ _. self.new.noted < length self.new.entries) }
        ensures err { OnErr result (self.new ≡ self.old) }
    {
        self.journal.reserve()?;
        // No number passes that of the entries.
        let _ = self.journal.next_len();
        let answer = self.memory.answer_to(step)?;
        self.journal.append(Entry::Domain { step, answer });
        Ok(answer)
    }

    /// What holds whenever the lock is free: the journal is legal.
    pub fn legal(&self)
        ensures { IsLegal N.numbers kind.Domain self.now.entries }
    {
        self.journal.legal();
    }

    /// Whether a live mapping has this bounce page.
    pub fn in_use(&self, page: u32) -> bool
        ensures { result ≡ acts.is_in_use 1 (domain_acts N.numbers (reverse self.now.entries)) page }
    {
        self.memory.in_use(page)
    }

    /// A note of the last entry, which has none yet.
    pub fn note(&mut self) -> Note<N>
        requires { self.old.noted < length self.old.entries }
        ensures noted { self.new ≡ record self.old { noted = length self.old.entries } }
        ensures note { result ≡ record {
          kind = kind.Domain;
          entries = self.old.entries;
          place =
              length self.old.entries - 1;
        } }
        ensures legal { IsLegal N.numbers kind.Domain self.old.entries }
    {
        self.journal.note()
    }

    /// Tells of two notes of this journal that their places differ, and that one's list is a front
    /// of the other's. The second is used up.
    pub fn meet(&mut self, first: &mut Note<N>, second: Note<N>)
        requires { (first.old.kind ≡ kind.Domain) × (second.kind ≡ kind.Domain) }
        ensures same { (self.new ≡ self.old) × (first.new ≡ first.old) }
        ensures apart { first.old.place ≢ second.place }
        ensures fronts { IsFront first.old.entries second.entries }
    {
        self.journal.meet(first, second);
    }

    /// Tells of a note of this journal that its list is a front of the journal. The note is used up.
    pub fn holds(&mut self, note: Note<N>)
        requires { note.kind ≡ kind.Domain }
        ensures same { self.new ≡ self.old }
        ensures front { IsPrefix note.entries self.old.entries }
    {
        self.journal.holds(note);
    }
}
