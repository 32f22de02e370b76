//! The bus, one step at a time.

ghost use Rattle.std.specs.Prelude.{◌≡◌, ◌≤◌, ◌++◌, [], ℕ, List, IfOk, IfSome, OnErr, MatchResult};
ghost use Rattle.vd_vhost_model.specs.GuestTable.{VhostAct};
ghost use Rattle.vd_vhost_model.specs.VhostTurns.{vhost_turn};
ghost use Rattle.vd_vhost.specs.Told.{MayTellOrDeny};
ghost use Rattle.vd_vhost.specs.Steps.{Answers};

use crate::bus::Bus;
use std::alloc::{AllocError, Global};
use std::marker::Model;
use vd_answers::{Hears, Kept};
use vd_vhost_model::{VhostAnswer, VhostStep};

/// A guest's memory that a daemon accesses through a table of regions with permissions.
#[derive(Drop)]
pub struct Vhost {
    bus: Bus,
}

impl Model for Vhost {
    ghost use Rattle.vd_vhost.specs.After.{BusParts};
    ghost use Rattle.vd_vhost.specs.Parts.{parts_of};

    ghost Value = { BusParts };

    ghost view = { λ v. parts_of v.bus };
}

impl Vhost {
    ghost use Rattle.vd_vhost.specs.After.{IsAfter};

    /// A bus over a memory of so many zero bytes: no table, no messages, the time 0, and 30 seconds for the
    /// daemon to answer.
    pub fn new(alloc: Global, bytes: u64) -> Result<Vhost, AllocError>
        requires some { 1 ≤ bytes }
        requires fits { bytes ≤ 67108864 }
        ensures { IfOk result (IsAfter bytes []) }
    {
        Ok(Vhost {
            bus: Bus::new(alloc, bytes)?,
        })
    }

    /// Does a step, and tells its answer. Where a permission is missing nothing is told: the address is
    /// handed out.
    pub fn tell<T: Hears>(
        &mut self,
        step: &VhostStep<'_>,
        told: &mut T,
    ) -> Result<Option<u64>, AllocError>
        requires { T.is_ready told.old }
        ensures line { (size : ℕ) (done : List VhostAct) → IsAfter size done self.old →
            MayTellOrDeny (λ said. T.heard told.old said told.new) (told.new ≡ told.old) (vhost_turn size done step.now)
            (λ acts. IsAfter size (acts ++ done) self.new) result }

        // Nothing is told where an address is handed out, whatever the bus stands for.
        ensures quiet { IfOk result (λ denied. IfSome denied (λ _. told.new ≡ told.old)) }
        ensures err { OnErr result (self.new ≡ self.old) }
    {
        match step {
            VhostStep::Load { at, len } => return self.bus.load(*at, *len, told),
            VhostStep::Store { at, bytes } => return Ok(
                self.bus.store(*at, bytes.as_slice(), told),
            ),
            VhostStep::Poke { offset, bytes } => self.bus.poke(*offset, bytes.as_slice(), told),
            VhostStep::Peek { offset, len } => self.bus.peek(*offset, *len, told)?,
            VhostStep::SetMap { regions } => self.bus.set_map(regions.as_slice(), told)?,
            VhostStep::Lookup { range } => self.bus.lookup(*range, told),
            VhostStep::Recv => self.bus.recv(told),
            VhostStep::Answer { id, result: code } => self.bus.answer(*id, *code, told),
            VhostStep::Lost => self.bus.lost(told),
            VhostStep::Tick { seconds } => self.bus.tick(*seconds, told),
            VhostStep::Take { id } => self.bus.take(*id, told),
        }
        Ok(None)
    }

    /// Does a step, and gives its answer. Without memory the bus stands for what it stood for.
    pub fn step(&mut self, step: &VhostStep<'_>) -> Result<VhostAnswer, AllocError>
        ensures { (size : ℕ) (done : List VhostAct) → IsAfter size done self.old →
            MatchResult result (λ answer. Answers size done (vhost_turn size done step.now) answer self.new)
            (λ _. IsAfter size done self.new) }
    {
        let mut kept = Kept::new(self.bus.alloc)?;
        match self.tell(step, &mut kept)? {
            Some(at) => Ok(VhostAnswer::Perm { at }),
            // what was told is there
            None => kept.answer.map(VhostAnswer::Plain).ok_or(AllocError),
        }
    }
}
