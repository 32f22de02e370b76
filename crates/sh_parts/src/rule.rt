//! The rule of a journal's table, and what each kind of step on it tells.
use crate::entry::Entry;
use crate::view::View;
use atomic_table::{Join, Play, Split, TableRule};
use std::marker::{Brand, PhantomData};

/// The rule of a journal.
pub(crate) struct JournalRule;

impl TableRule<(), View, ()> for JournalRule {
    ghost use Rattle.sh_parts.specs.Views.{keeper};
    ghost use Rattle.sh_parts.specs.Rule.{Kept};
    ghost use Rattle.std.specs.Prelude.{[]};

    ghost holds = { λ _ s. Kept s.views };

    ghost first = { λ _. keeper [] 0 };
}

/// The entry that a step appends. A step tells of numbers alone, so each append picks its own.
pub(crate) trait Draft {
    ghost use Rattle.sh_parts.specs.declared.entry.Entry.{Entry};

    ghost entry: { Entry };
}

impl Draft for Brand {
    ghost use Rattle.sh_parts.specs.Views.{no_entry};

    ghost entry = { no_entry };
}

/// The journal gets an entry.
pub(crate) struct Append<D> {
    draft: PhantomData<D>,
}

impl<D: Draft> Play<(), View> for Append<D> {
    ghost use Rattle.sh_parts.specs.Steps.{Appends};

    ghost then = { Appends D.entry };
}

/// A look at the claim that was met, which is let go then.
pub(crate) struct Look;

impl Play<(), View> for Look {
    ghost use Rattle.sh_parts.specs.Steps.{Looks};

    ghost then = { Looks };
}

/// A note of the last entry goes to a new seat.
pub(crate) struct NoteLast;

impl Split<View> for NoteLast {
    ghost use Rattle.sh_parts.specs.Views.{all_noted, last_note};

    ghost left = { all_noted };

    ghost right = { last_note };
}

/// A seat takes in the claim of a note.
pub(crate) struct Meet;

impl Join<View> for Meet {
    ghost use Rattle.sh_parts.specs.Views.{meeting, nobody};

    ghost both = { meeting };

    ghost spent = { nobody };
}
