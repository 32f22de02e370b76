//! A pass is what a thread works on the cells with. It cannot be dropped: a pass that is done is
//! joined into a driver's, and the last one closes the cells.
ghost use Rattle.std.specs.Prelude.{◌≡◌, ◌≤◌, ◌-◌, [], ℕ};
ghost use Rattle.sh_cells.specs.Views.{LiesWithin};

use crate::view::View;
use crate::word::Kind;
use atomic_table::Seat;
use std::marker::Model;

/// What both kinds of pass hold: a seat at the table of the cells, and the numbers of its view.
pub struct Token {
    pub(crate) seat: Seat<(), View>,
    pub(crate) left: u64,
    pub(crate) quota: u64,
    ghost left_is: { left ≡ seat.me.0.left },
    ghost quota_is: { quota ≡ seat.me.0.quota },
    ghost unspent: { 1 ≤ quota },
    ghost empty_handed: { seat.me.1 ≡ [] },
    // Beside the counter and the page words, the table has a word for each byte of the memory.
    ghost inside: { LiesWithin (seat.table_id.words - 4097) seat.me.0 },
}

/// The pass of a driver. In contracts it is its token.
pub struct DriverPass {
    pub(crate) token: Token,
}

/// The pass of a daemon. In contracts it is its token.
pub struct DaemonPass {
    pub(crate) token: Token,
}

/// What all passes did. It has no bytes, and only contracts read it.
#[derive(Drop)]
pub struct Log {
    pub(crate) seat: Seat<(), View>,
}

impl Model for DriverPass {
    ghost use Rattle.sh_cells.specs.declared.pass.Token.{Token};

    ghost Value = { Token };

    ghost view = { λ p. p.token };
}

impl Model for DaemonPass {
    ghost use Rattle.sh_cells.specs.declared.pass.Token.{Token};

    ghost Value = { Token };

    ghost view = { λ p. p.token };
}

/// What a driver's pass and a daemon's have in common.
pub trait Pass {
    ghost use Rattle.std.specs.Prelude.{ℕ, ◌≡◌};
    ghost use Rattle.std.specs.Borrow.{sem, Lends};
    ghost use Rattle.sh_cells.specs.declared.word.Kind.{Kind};
    ghost use Rattle.sh_cells.specs.declared.pass.Token.{Token};
    ghost use Rattle.sh_cells.specs.contracts.pass.Token.{the_row};
    ghost use Rattle.sh_cells.specs.Passes.{view};

    ghost token: { Self → Token };

    ghost with_token: { Self → Token → Self };

    // The kinds of entry that the pass may draw.
    ghost may_draw: { Kind → Type 0 };

    /// The stamps that the pass may still draw.
    fn left(&self) -> u64
        ensures { result ≡ (view (token self.now)).left };

    /// The pass's share of all 2^47 stamps, which drawing does not change.
    fn quota(&self) -> u64
        ensures { result ≡ (view (token self.now)).quota };

    /// The token, lent to the cells.
    fn token_mut(&mut self) -> &mut Token
        ensures* lends { sem 𝓛 (Lends Self.row the_row self.entry result (with_token self.old)) }
        ensures value { result.now ≡ token self.old };

    ghost token_back: { (p : Self) (t : Token) → token (with_token p t) ≡ t };
}

impl Pass for DriverPass {
    ghost use Rattle.std.specs.Prelude.{◌≢◌, refl};
    ghost use Rattle.sh_cells.specs.declared.word.Kind.TheVariants.{Daemon};

    ghost token = { λ p. p };

    ghost with_token = { λ p t. t };

    ghost may_draw = { λ kind. kind ≢ Daemon };

    ghost token_back = { λ p t. refl };

    fn left(&self) -> u64 {
        self.token.left
    }

    fn quota(&self) -> u64 {
        self.token.quota
    }

    fn token_mut(&mut self) -> &mut Token {
        &mut self.token
    }
}

impl Pass for DaemonPass {
    ghost use Rattle.std.specs.Prelude.{◌≡◌, refl};
    ghost use Rattle.sh_cells.specs.declared.word.Kind.TheVariants.{Daemon};

    ghost token = { λ p. p };

    ghost with_token = { λ p t. t };

    ghost may_draw = { λ kind. kind ≡ Daemon };

    ghost token_back = { λ p t. refl };

    fn left(&self) -> u64 {
        self.token.left
    }

    fn quota(&self) -> u64 {
        self.token.quota
    }

    fn token_mut(&mut self) -> &mut Token {
        &mut self.token
    }
}
