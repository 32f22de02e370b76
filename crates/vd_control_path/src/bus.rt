//! The bus's lines on the control path.

ghost use Rattle.std.specs.Prelude.{◌≡◌, ◌+◌, ◌-◌, ◌^◌, ℕ, List, true};
ghost use Rattle.vd_model.specs.Creation.{Creation};
ghost use Rattle.vd_model.specs.Acts.{Act};
ghost use Rattle.vd_model.specs.BusTurns.{attached_turn, getvqstate_turn};
ghost use Rattle.vd_answers.specs.Tells.{MayTell};
ghost use Rattle.vd_control_path.specs.Forms.{is_bus_line_of_path};

use crate::path::ControlPath;
use std::alloc::AllocError;
use vd_answers::Hears;
use vd_config_lines::getconfig;
use vd_message_lines::{send, timeout};
use vd_model::{Body, BusStep};
use vd_state_lines::bus_line;

impl ControlPath {
    ghost use Rattle.vd_control_path.specs.Stands.{PathBefore, PathAfter, IsWithin};

    /// Asks the daemon for a queue's available index.
    fn getvqstate<T: Hears>(&mut self, queue: u32, now: u64, told: &mut T) -> Result<(), AllocError>
        requires { T.is_ready told.old }
        ensures line { (made : Creation) (acts : List Act) → PathBefore made acts self.old →
            MayTell (λ said. T.heard told.old said told.new) (getvqstate_turn made now acts queue)
            (PathAfter made acts self.new) result }
        ensures within { (most : ℕ) → IsWithin most self.old → IsWithin most self.new }
    {
        match self.state.info(queue) {
            Ok(_) => send(
                &mut self.messages,
                Body::VqState { index: queue },
                now,
                told,
            ),
            Err(errno) => {
                told.refused(errno);
                Ok(())
            }
        }
    }

    /// Answers a line of the bus. What the line needs of the bus was tested before.
    pub fn bus_line<T: Hears>(
        &mut self,
        now: u64,
        step: &BusStep,
        told: &mut T,
    ) -> Result<(), AllocError>
        requires ready { T.is_ready told.old }
        requires form { is_bus_line_of_path step.now ≡ true }
        requires room { IsWithin (2 ^ 62 - 1) self.old }
        ensures line { (made : Creation) (acts : List Act) → PathBefore made acts self.old →
            MayTell (λ said. T.heard told.old said told.new) (attached_turn made now acts step.now)
            (PathAfter made acts self.new) result }
        ensures within { (most : ℕ) → IsWithin most self.old → IsWithin (most + 1) self.new }
    {
        match step {
            BusStep::SetStatus { status } => {
                send(
                    &mut self.messages,
                    Body::Status { value: *status },
                    now,
                    told,
                )
            }
            BusStep::GetVqState { queue } => self.getvqstate(*queue, now, told),
            BusStep::GetConfig { offset, len } => getconfig(&self.config, *offset, *len, told),
            BusStep::Attach => {
                self.attach(told);
                Ok(())
            }
            BusStep::Timeout { seconds } => {
                timeout(&mut self.messages, *seconds, told);
                Ok(())
            }
            BusStep::Offered
            | BusStep::SetFeatures { .. }
            | BusStep::GetStatus
            | BusStep::VqNum { .. }
            | BusStep::VqAddr { .. }
            | BusStep::VqReady { .. }
            | BusStep::SetVqState { .. }
            | BusStep::Kick { .. }
            | BusStep::Callback { .. }
            | BusStep::Irqs { .. } => {
                bus_line(&mut self.state, now, step, told);
                Ok(())
            }
            BusStep::Detach | BusStep::Reset | BusStep::Take { .. } => unreachable!(),
        }
    }
}
