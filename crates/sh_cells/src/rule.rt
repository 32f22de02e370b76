//! The rule of the table, and what each kind of step on it tells.
use crate::view::View;
use crate::word::Kind;
use atomic_table::{Join, Play, Split, TableRule};
use std::marker::{Brand, PhantomData};

/// The rule of the cells. Its key is the number of pages.
pub(crate) struct CellsRule;

impl TableRule<(), View, u64> for CellsRule {
    ghost use Rattle.sh_cells.specs.Views.{all_stamps};
    ghost use Rattle.sh_cells.specs.Rule.{Kept};

    ghost holds = { Kept };

    ghost first = { λ _. all_stamps };
}

/// A load of a cell.
pub(crate) struct ReadCell;

impl Play<(), View> for ReadCell {
    ghost use Rattle.sh_cells.specs.Steps.{ReadsCell};

    ghost then = { ReadsCell };
}

/// A store of a cell, by a put or a copy.
pub(crate) struct PutWord;

impl Play<(), View> for PutWord {
    ghost use Rattle.sh_cells.specs.Steps.{PutsWord};

    ghost then = { PutsWord };
}

/// What an entry says beside its stamp. A step tells of numbers alone, so each draw picks its own.
pub(crate) trait Draft {
    ghost use Rattle.std.specs.Prelude.{ℕ, List};
    ghost use Rattle.sh_cells.specs.declared.word.Kind.{Kind};

    ghost kind: { Kind };

    ghost base: { ℕ };

    ghost bytes: { List ℕ };
}

impl Draft for Brand {
    ghost use Rattle.std.specs.Prelude.{[]};
    ghost use Rattle.sh_cells.specs.declared.word.Kind.TheVariants.{Zero};

    ghost kind = { Zero };

    ghost base = { 0 };

    ghost bytes = { [] };
}

/// A draw of the next stamp, for an entry of this draft.
pub(crate) struct DrawEntry<D> {
    draft: PhantomData<D>,
}

impl<D: Draft> Play<(), View> for DrawEntry<D> {
    ghost use Rattle.sh_cells.specs.Steps.{DrawsEntry};

    ghost then = { DrawsEntry D.kind D.base D.bytes };
}

/// A load of a page word.
pub(crate) struct FindPage;

impl Play<(), View> for FindPage {
    ghost use Rattle.sh_cells.specs.Steps.{FindsPage};

    ghost then = { FindsPage };
}

/// A store of a page word.
pub(crate) struct SetPage;

impl Play<(), View> for SetPage {
    ghost use Rattle.sh_cells.specs.Steps.{SetsPage};

    ghost then = { SetsPage };
}

/// A load that tells what the rule says of the view, and changes nothing.
pub(crate) struct Look;

impl Play<(), View> for Look {
    ghost use Rattle.sh_cells.specs.Steps.{Looks};

    ghost then = { Looks };
}

/// How much a pass gives up. Each split picks its own.
pub(crate) trait Share {
    ghost use Rattle.std.specs.Prelude.{ℕ};

    ghost share: { ℕ };
}

impl Share for Brand {
    ghost share = { 0 };
}

/// A share of the stamps and of the quota goes to a new pass.
pub(crate) struct CutShare<D> {
    share: PhantomData<D>,
}

impl<D: Share> Split<View> for CutShare<D> {
    ghost use Rattle.sh_cells.specs.Views.{kept_of, given_of};

    ghost left = { kept_of D.share };

    ghost right = { given_of D.share };
}

/// One pass takes in another.
pub(crate) struct TakeIn;

impl Join<View> for TakeIn {
    ghost use Rattle.sh_cells.specs.Views.{both_of, nothing};

    ghost both = { both_of };

    ghost spent = { nothing };
}
