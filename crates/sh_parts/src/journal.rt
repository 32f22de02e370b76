//! A journal as it lies under its lock, and its notes.
ghost use Rattle.std.specs.Prelude.{◌≡◌, ◌≢◌, ℕ, List, [], ◌∷◌, ◌++◌, ◌+◌, ◌-◌, ◌<◌, ◌≤◌, true, length, reverse, IfOk, OnOk, OnErr};
ghost use mathlib.Core.List.{IsPrefix};
ghost use Rattle.sh_parts.specs.Legal.{IsRight, IsLegal};
ghost use Rattle.sh_parts.specs.Views.{keeper, with_entry};
ghost use Rattle.sh_parts.specs.Steps.{IsFront};
ghost use Rattle.sh_parts.specs.Journals.{JournalView, NoteView, table_of};

use crate::entry::{Entry, JournalKind};
use crate::rule::{Append, Draft, JournalRule, Look, Meet, NoteLast};
use crate::view::View;
use atomic_table::{Seat, Shared, Table};
use std::alloc::{AllocError, Global};
use std::marker::{Brand, Model, PhantomData};

/// The name of a device: which tables its journals stand on, and its numbers. Only contracts see it.
pub trait Naming {
    ghost use Rattle.atomic_table.specs.Seated.{TableId};
    ghost use Rattle.sh_parts.specs.Legal.{Numbers};

    ghost domain: { TableId };

    ghost messages: { TableId };

    ghost numbers: { Numbers };
}

impl Naming for Brand {
    ghost use Rattle.sh_parts.specs.Journals.{no_table, no_numbers};

    ghost domain = { no_table };

    ghost messages = { no_table };

    ghost numbers = { no_numbers };
}

/// An empty journal that has no name yet.
#[derive(Drop)]
pub(crate) struct NewJournal {
    pub(crate) kind: JournalKind,
    table: Table<(), View, (), JournalRule, Global>,
    pub(crate) seat: Seat<(), View>,
    pub(crate) entries: Vec<Entry>,
    ghost seat_of: { seat.table_id ≡ table.shared.table_id },
    ghost one_word: { table.shared.table_id.words ≡ 1 },
    ghost empty: { entries.items ≡ [] },
    ghost knows: { seat.me ≡ (keeper [] 0, []) },
}

/// A journal. In contracts it is its entries, how many of them were noted, and the room for more.
#[derive(Drop)]
pub(crate) struct Journal<N: Naming> {
    kind: JournalKind,
    table: Table<(), View, (), JournalRule, Global>,
    seat: Seat<(), View>,
    entries: Vec<Entry>,
    name: PhantomData<N>,
}

impl<N: Naming> Model for Journal<N> {
    ghost use Rattle.std.specs.Prelude.{◌≡◌, ◌≤◌, ◌-◌, [], length, vec_len, vec_capacity};
    ghost use Rattle.sh_parts.specs.Legal.{IsLegal};
    ghost use Rattle.sh_parts.specs.Views.{keeper};
    ghost use Rattle.sh_parts.specs.Journals.{JournalView, table_of};

    ghost Value = { JournalView };

    ghost view = { λ j. record {
      kind = j.kind;
      entries = j.entries.items;
      noted = j.seat.me.0.noted;
      room = vec_capacity j.entries - vec_len j.entries;
    } };

    ghost invariant = { λ j. (j.table.shared.table_id ≡ table_of N.domain N.messages j.kind)
        × (j.seat.table_id ≡ j.table.shared.table_id)
        × (j.table.shared.table_id.words ≡ 1)
        × IsLegal N.numbers j.kind j.entries.items
        × (j.seat.me.0.noted ≤ length j.entries.items)
        × (j.seat.me ≡ (keeper j.entries.items j.seat.me.0.noted, [])) };
}

/// A front of a journal as it was when the note was made, and the place of its last entry then. In
/// contracts it is these two. No two notes of one journal have the same place.
#[derive(Drop)]
pub struct Note<N: Naming> {
    kind: JournalKind,
    seat: Seat<(), View>,
    place: u64,
    name: PhantomData<N>,
}

impl<N: Naming> Model for Note<N> {
    ghost use Rattle.std.specs.Prelude.{◌≡◌, ◌<◌, [], length};
    ghost use Rattle.sh_parts.specs.Legal.{IsLegal};
    ghost use Rattle.sh_parts.specs.Views.{note_of};
    ghost use Rattle.sh_parts.specs.Journals.{NoteView, table_of};

    ghost Value = { NoteView };

    ghost view = { λ n. record { kind = n.kind; entries = n.seat.me.0.entries; place = n.place } };

    ghost invariant = { λ n. (n.seat.table_id ≡ table_of N.domain N.messages n.kind)
        × IsLegal N.numbers n.kind n.seat.me.0.entries
        × (n.place < length n.seat.me.0.entries)
        × (n.seat.me ≡ (note_of n.seat.me.0.entries n.place, [])) };
}

impl NewJournal {
    pub(crate) fn new(alloc: Global, kind: JournalKind) -> Result<NewJournal, AllocError>
        ensures { IfOk result (λ j. j.kind ≡ kind) }
    {
        let (table, seat) = Table::of_words(alloc, &[0], &())?;
        Ok(NewJournal {
            kind,
            table,
            seat,
            entries: Vec::new(alloc),
        })
    }

    /// The journal with a name.
    pub(crate) fn named<N: Naming>(self) -> Journal<N>
        requires { self.seat.table_id ≡ table_of N.domain N.messages self.kind }
        ensures kind { result.kind ≡ self.kind }
        ensures empty { (result.entries ≡ []) × (result.noted ≡ 0) }
    {
        let NewJournal {
            kind,
            table,
            seat,
            entries,
        } = self;
        Journal {
            kind,
            table,
            seat,
            entries,
            name: PhantomData,
        }
    }
}

fn append_draft<D: Draft>(
    top: &Shared<(), View, (), JournalRule>,
    seat: &mut Seat<(), View>,
    entry: Entry,
)
    requires draft { entry ≡ D.entry }
    requires of { (seat.old.table_id ≡ top.now.table_id) × (top.now.table_id.words ≡ 1) }
    requires keeps { seat.old.me.0.keeps ≡ true }

    ensures { (seat.new.table_id ≡ seat.old.table_id)
        × (seat.new.me.0 ≡ with_entry seat.old.me.0 entry) × (seat.new.me.1 ≡ seat.old.me.1) }
{
    // The entry lives in the view alone.
    let _ = entry;
    top.load::<Append<D>>(seat, 0);
}

impl<N: Naming> Journal<N> {
    /// What holds of every journal.
    pub(crate) fn legal(&self)
        ensures { IsLegal N.numbers self.now.kind self.now.entries }
    {
        let _ = &self.kind;
    }

    /// Makes room for one entry more.
    pub(crate) fn reserve(&mut self) -> Result<(), AllocError>
        ensures room { OnOk result (1 ≤ self.new.room) }
        ensures same { self.new ≡ record self.old { room = self.new.room } }
    {
        self.entries.reserve(1)
    }

    /// Appends an entry, for which there is room.
    pub(crate) fn append(&mut self, entry: Entry)
        requires room { 1 ≤ self.old.room }
        requires right { IsRight N.numbers self.old.kind (reverse self.old.entries) entry }
        ensures entry { self.new
            ≡ record self.old {
              entries = self.old.entries
                  ++ entry ∷ [];
              room = self.old.room - 1;
            } }
        ensures unnoted { self.new.noted < length self.new.entries }
    {
        self.entries.push_reserved(entry);
        let table = &self.table;
        append_draft::<Brand>(&table.shared, &mut self.seat, entry);
    }

    /// How many entries there are after the next one, for which there is room.
    pub(crate) fn next_len(&self) -> u64
        requires { 1 ≤ self.now.room }
        ensures { result ≡ length self.now.entries + 1 }
    {
        // The capacity is a usize, so one more than the length is too.
        let _ = self.entries.capacity();
        self.entries.len() as u64 + 1
    }

    /// A note of the last entry, which has none yet.
    pub(crate) fn note(&mut self) -> Note<N>
        requires { self.old.noted < length self.old.entries }
        ensures noted { self.new ≡ record self.old { noted = length self.old.entries } }
        ensures note { result ≡ record {
          kind = self.old.kind;
          entries = self.old.entries;
          place =
              length self.old.entries - 1;
        } }
    {
        let place = self.entries.len() as u64 - 1;
        let table = &self.table;
        let seat = table.shared.split_seat::<NoteLast>(&mut self.seat);
        Note {
            kind: self.kind,
            seat,
            place,
            name: PhantomData,
        }
    }

    /// Tells of two notes of this journal that their places differ. The second is used up.
    pub(crate) fn meet(&self, first: &mut Note<N>, second: Note<N>)
        requires { (first.old.kind ≡ self.now.kind) × (second.kind ≡ self.now.kind) }
        ensures same { first.new ≡ first.old }
        ensures apart { first.old.place ≢ second.place }
        ensures fronts { IsFront first.old.entries second.entries }
    {
        let Note {
            kind: _,
            seat,
            place: _,
            name: _,
        } = second;
        self.table.shared.join_seat::<Meet>(&mut first.seat, seat);
        self.table.shared.load::<Look>(&mut first.seat, 0);
    }

    /// Tells of a note of this journal that its list is a front of it. The note is used up.
    pub(crate) fn holds(&mut self, note: Note<N>)
        requires { note.kind ≡ self.old.kind }
        ensures same { self.new ≡ self.old }
        ensures front { IsPrefix note.entries self.old.entries }
    {
        let Note {
            kind: _,
            seat,
            place: _,
            name: _,
        } = note;
        let table = &self.table;
        table.shared.join_seat::<Meet>(&mut self.seat, seat);
        table.shared.load::<Look>(&mut self.seat, 0);
    }
}

impl<N: Naming> Note<N> {
    /// The place of the noted entry in the journal, whose first entry has the place 0.
    pub fn place(&self) -> u64
        ensures value { result ≡ self.now.place }
        ensures inside { result < length self.now.entries }
        ensures legal { IsLegal N.numbers self.now.kind self.now.entries }
    {
        self.place
    }
}
