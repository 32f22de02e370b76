//! The node's lines on the control path.

ghost use Rattle.std.specs.Prelude.{◌≡◌, ◌+◌, ◌-◌, ◌^◌, ℕ, List, true};
ghost use Rattle.vd_model.specs.Creation.{Creation};
ghost use Rattle.vd_model.specs.Acts.{Act};
ghost use Rattle.vd_model.specs.NodeTurns.{plain_turn};
ghost use Rattle.vd_answers.specs.Tells.{Tells};
ghost use Rattle.vd_control_path.specs.Forms.{is_node_line_of_path};

use crate::path::ControlPath;
use vd_answers::Hears;
use vd_config_lines::setconfig;
use vd_message_lines::{answer, read, recv, write};
use vd_model::NodeStep;
use vd_state_lines::node_line;

impl ControlPath {
    ghost use Rattle.vd_control_path.specs.Stands.{PathBefore, PathAfter, IsWithin};

    /// Answers a line of the node. That a session is open was tested before.
    pub fn node_line<T: Hears>(&mut self, step: &NodeStep, told: &mut T)
        requires ready { T.is_ready told.old }
        requires form { is_node_line_of_path step.now ≡ true }
        requires room { IsWithin (2 ^ 62 - 1) self.old }
        ensures line { (made : Creation) (acts : List Act) → PathBefore made acts self.old →
            Tells (λ said. T.heard told.old said told.new) (plain_turn made acts step.now)
            (PathAfter made acts self.new) }
        ensures within { (most : ℕ) → IsWithin most self.old → IsWithin (most + 1) self.new }
    {
        match step {
            NodeStep::Open => self.open(told),
            NodeStep::SetConfig { offset, bytes } => {
                setconfig(&mut self.config, *offset, bytes.as_slice(), told)
            }
            NodeStep::Recv => recv(&mut self.messages, told),
            NodeStep::Answer { id, reply, avail } => {
                answer(&mut self.messages, *id, *reply, *avail, told)
            }
            NodeStep::Read { len } => read(&mut self.messages, *len, told),
            NodeStep::Write { bytes } => write(&mut self.messages, bytes.as_slice(), told),
            NodeStep::Features
            | NodeStep::ConfigIrq
            | NodeStep::VqSetup { .. }
            | NodeStep::VqInfo { .. }
            | NodeStep::KickFd { .. }
            | NodeStep::Kicks { .. }
            | NodeStep::Irq { .. } => node_line(&mut self.state, step, told),
            NodeStep::Close | NodeStep::Ioctl { .. } => unreachable!(),
        }
    }
}
