//! Why no chain is taken.
ghost use Rattle.std.specs.Prelude.{◌≡◌};
ghost use Rattle.vr_device.specs.declared.error.PopError.TheVariants.{Walk};
ghost use Rattle.vr_chain.specs.declared.error.WalkError.TheVariants.{Bus as NotThere};

use vd_num::Bus;
use vr_chain::WalkError;

/// Why no chain is taken: the available index is further ahead than the ring has slots, or a walk gives no chain.
#[derive(Clone, Copy, Debug, PartialEq, Eq)]
pub enum PopError {
    Ahead { found: u16, known: u16 },
    Walk(WalkError),
}

impl From<Bus> for PopError {
    ghost from_gives = { λ bus e. e ≡ Walk (NotThere bus.at) };

    fn from(bus: Bus) -> Self {
        PopError::Walk(WalkError::Bus { at: bus.at })
    }
}

impl From<WalkError> for PopError {
    ghost from_gives = { λ w e. e ≡ Walk w };

    fn from(e: WalkError) -> Self {
        PopError::Walk(e)
    }
}
