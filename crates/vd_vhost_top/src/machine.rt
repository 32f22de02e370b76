//! The machine that answers the lines of a bus.

ghost use Rattle.std.specs.Prelude.{◌≡◌, ◌≤◌, [], IfOk, false};
ghost use Rattle.vd_vhost.specs.After.{IsAfter};

use std::alloc::{AllocError, Global};
use vd_loop::{Answer, Machine};
use vd_vhost_turns::VhostLines;

/// A bus that is asked lines. There is nothing outside of it.
#[derive(Drop)]
pub struct BusMachine {
    lines: VhostLines,
}

impl BusMachine {
    /// A machine over a memory of so many zero bytes: no table, no messages, the time 0.
    pub fn new(alloc: Global, bytes: u64) -> Result<BusMachine, AllocError>
        requires some { 1 ≤ bytes }
        requires fits { bytes ≤ 67108864 }
        ensures { IfOk result (λ machine. IsAfter bytes [] machine.lines.bus) }
    {
        Ok(BusMachine {
            lines: VhostLines::new(alloc, bytes)?,
        })
    }
}

impl Machine<()> for BusMachine {
    ghost use Rattle.vd_vhost_top.specs.Answered.{is_bus_line, LinesAnswered};

    ghost reads = { is_bus_line };

    ghost alone = { λ _. false };

    ghost fits = { λ _ _ _. Unit {0} };

    ghost answered = { λ first _ done replies now _. LinesAnswered first.lines.bus done replies now.lines.bus };

    ghost short = { λ first _ done replies _ now _. LinesAnswered first.lines.bus done replies now.lines.bus };

    ghost told = { λ machine. machine.lines.reply };

    fn answer(&mut self, _: &mut (), line: &[u8], _: u64, _: bool) -> Result<Answer, AllocError> {
        if self.lines.answer(line)? {
            Ok(Answer::Told)
        } else {
            Ok(Answer::Bad)
        }
    }

    fn reply(&self) -> &[u8] {
        self.lines.reply()
    }
}
