//! Which acts the lines of a device make: for each family of lines a test that all acts of their
//! turns pass, whatever was done before.
//!
//! It stands on the numbers and the model alone, and no code stands under it: the laws take from it
//! what a line can't do.
#![tactic(auto)]

ghost use Rattle.std.specs.Prelude.{ℕ, List, [], Bool, true, ◌≡◌};
ghost use Rattle.std.specs.List.{list_all};
ghost use Rattle.vd_model.specs.declared.step.BusStep.{BusStep};
ghost use Rattle.vd_model.specs.declared.step.NodeStep.{NodeStep};
ghost use Rattle.vd_model.specs.declared.step.DevStep.{DevStep};
ghost use Rattle.vd_model.specs.Setting.{Setting};
ghost use Rattle.vd_model.specs.Creation.{Creation};
ghost use Rattle.vd_model.specs.Acts.{Act};
ghost use Rattle.vd_model.specs.Block.{Disk};
ghost use Rattle.vd_model.specs.Deeds.{Seen};
ghost use Rattle.vd_model.specs.BusTurns.{bus_turn};
ghost use Rattle.vd_model.specs.NodeTurns.{plain_turn, node_turn};
ghost use Rattle.vd_model.specs.DaemonTurns.{walk_turn, fetch_turn, execute_turn, finish_turn};
ghost use Rattle.vd_model.specs.History.{dev_turn};
ghost use Rattle.vd_line_acts.specs.LineActs.{
  is_bus_line_act,
  is_plain_node_line_act,
  is_node_line_act,
  is_device_line_act,
  is_execute_act,
  is_daemon_line_act,
};

/// All acts of a line's turn pass the test of its family, whatever was done before; a walk makes
/// none. It does nothing.
pub fn acts_of_lines()
    ensures bus { (made : Creation) (now : ℕ) (done : List Act) (step : BusStep) →
        list_all is_bus_line_act (bus_turn made now done step).acts ≡ true }
    ensures plain_node { (made : Creation) (done : List Act) (step : NodeStep) →
        list_all is_plain_node_line_act (plain_turn made done step).acts ≡ true }
    ensures node { (x : Setting) (made : Creation) (done : List Act) (step : NodeStep) →
        list_all is_node_line_act (node_turn x made done step).acts ≡ true }
    ensures device { (x : Setting) (made : Creation) (seen : Seen) (step : DevStep) →
        list_all is_device_line_act (dev_turn x made seen step).acts ≡ true }
    // those of the block daemon
    ensures walk { (x : Setting) (made : Creation) (done : List Act) (q head : ℕ) →
        (walk_turn x made done q head).acts ≡ [] }
    ensures fetch { (x : Setting) (made : Creation) (done : List Act) (q : ℕ) →
        list_all is_daemon_line_act (fetch_turn x made done q).acts ≡ true }
    ensures execute { (x : Setting) (made : Creation) (disk : Disk) (failed : Bool) (done : List Act)
        (q : ℕ) → list_all is_execute_act (execute_turn x made disk failed done q).acts ≡ true }
    ensures finish { (x : Setting) (made : Creation) (done : List Act) (q : ℕ) →
        list_all is_daemon_line_act (finish_turn x made done q).acts ≡ true }
{}
