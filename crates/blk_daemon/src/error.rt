//! Why no request is fetched, executed or finished.
ghost use Rattle.std.specs.Prelude.{◌≡◌};
ghost use Rattle.blk_daemon.specs.declared.error.FetchError.TheVariants.{Memory, Bus as NotThere};
ghost use Rattle.blk_daemon.specs.declared.error.FinishError.TheVariants.{Bus as CantStore};
ghost use Rattle.blk_daemon.specs.Errors.{fetch_error};

use std::alloc::{AllocError, AllocFailed};
use vd_num::Bus;
use vr_chain::{ChainFault, WalkError};
use vr_device::PopError;

/// Why no request is fetched.
#[derive(Clone, Copy, Debug, PartialEq, Eq)]
pub enum FetchError {
    /// A request is in hand.
    Busy,
    /// The available index is the position.
    Empty,
    /// The available index is further than the ring's size past the position.
    Ahead { found: u16, known: u16 },
    /// The chain breaks a rule.
    Fault(ChainFault),
    /// The chain is no request: the bytes that the device reads and writes.
    Shape { readable: u64, writable: u64 },
    /// The first address that can't be accessed.
    Bus { at: u64 },
    /// Want of memory.
    Memory,
}

impl From<Bus> for FetchError {
    ghost from_gives = { λ bus e. e ≡ NotThere bus.at };

    fn from(bus: Bus) -> Self {
        FetchError::Bus { at: bus.at }
    }
}

impl From<AllocError> for FetchError {
    ghost from_gives = { λ _ e. e ≡ Memory };

    fn from(_: AllocError) -> Self {
        FetchError::Memory
    }
}

impl From<PopError> for FetchError {
    ghost from_gives = { λ p e. e ≡ fetch_error p };

    fn from(e: PopError) -> Self {
        match e {
            PopError::Ahead { found, known } => FetchError::Ahead { found, known },
            PopError::Walk(WalkError::Fault(fault)) => FetchError::Fault(fault),
            PopError::Walk(WalkError::Bus { at }) => FetchError::Bus { at },
            PopError::Walk(WalkError::Memory) => FetchError::Memory,
        }
    }
}

/// No request is in hand, or it was executed before.
#[derive(Clone, Copy, Debug, PartialEq, Eq)]
pub struct NoRequest;

/// Why no request is finished.
#[derive(Clone, Copy, Debug, PartialEq, Eq)]
pub enum FinishError {
    /// No request is in hand, or it wasn't executed.
    NoRequest,
    /// The first address that can't be accessed.
    Bus { at: u64 },
}

impl From<Bus> for FinishError {
    ghost from_gives = { λ bus e. e ≡ CantStore bus.at };

    fn from(bus: Bus) -> Self {
        FinishError::Bus { at: bus.at }
    }
}
