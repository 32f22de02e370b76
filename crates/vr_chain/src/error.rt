//! Why a walk gives no chain.
ghost use Rattle.std.specs.Prelude.{◌≡◌};
ghost use Rattle.vr_chain.specs.declared.error.WalkError.TheVariants.{Memory, Bus as NotThere};

use std::alloc::{AllocError, AllocFailed};
use vd_model::ChainFault;
use vd_num::Bus;

/// Why a walk gives no chain: a rule that the chain breaks, a descriptor that can't be loaded, with the first of its
/// addresses at which no byte stands, or want of memory.
#[derive(Clone, Copy, Debug, PartialEq, Eq)]
pub enum WalkError {
    Fault(ChainFault),
    Bus { at: u64 },
    Memory,
}

impl From<AllocError> for WalkError {
    ghost from_gives = { λ _ e. e ≡ Memory };

    fn from(_: AllocError) -> Self {
        WalkError::Memory
    }
}

impl<T: Drop> From<AllocFailed<T>> for WalkError {
    ghost from_gives = { λ _ e. e ≡ Memory };

    fn from(_: AllocFailed<T>) -> Self {
        WalkError::Memory
    }
}

impl From<Bus> for WalkError {
    ghost from_gives = { λ bus e. e ≡ NotThere bus.at };

    fn from(bus: Bus) -> Self {
        WalkError::Bus { at: bus.at }
    }
}
