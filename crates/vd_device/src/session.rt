//! The end of a session, and a reset.

ghost use Rattle.std.specs.Prelude.{◌≡◌, ◌+◌, ◌-◌, ◌<◌, ◌^◌, ◌∷◌, ◌++◌, ℕ, List};
ghost use Rattle.vd_pool.specs.Memory.{PoolMemory};
ghost use Rattle.vd_model.specs.Setting.{Setting};
ghost use Rattle.vd_model.specs.Creation.{Creation};
ghost use Rattle.vd_model.specs.Acts.{Act, Node, Message_act, Closed};
ghost use Rattle.vd_model.specs.Acts as act;
ghost use Rattle.vd_model.specs.State.{Cleared};
ghost use Rattle.vd_model.specs.Messages.{Lost};
ghost use Rattle.vd_model.specs.Live.{registration_of};
ghost use Rattle.vd_model.specs.NodeTurns.{registration_end};
ghost use Rattle.vd_state.specs.Kept.{CountsWithin};
ghost use Rattle.vd_control_path.specs.Stands as path;
ghost use Rattle.vd_memory_lines.specs.Rest.{KeepsRest, KeepsFrames};

use crate::device::Device;
use vd_pool::Pool;

impl Device {
    ghost use Rattle.vd_device.specs.Stands.{Stands, IsHeld};

    /// Ends the session, and with it a registration and the area. The messages that it held are received again.
    pub(crate) fn close(&mut self, pool: &mut Pool)
        requires held { IsHeld self.old pool.old }
        requires room { self.old.path.closings < 2 ^ 62 }
        ensures stands { (x : Setting) (made : Creation) (done : List Act) → Stands x made done self.old pool.old
            → Stands x made (Message_act Lost ∷ Node Closed ∷ registration_end (registration_of done)
            ++ done) self.new pool.new }
        ensures rest { KeepsRest self.old.memory self.new.memory pool.old pool.new }
        ensures path { (most : ℕ) → path.IsWithin most self.old.path →
            path.IsWithin (most + 1) self.new.path }
    {
        self.memory.end_session(pool);
        self.path.close();
    }

    /// Resets the state, and with it the bounce region.
    pub(crate) fn clear(&mut self)
        requires { CountsWithin (2 ^ 62 - 1) self.old.path.state }
        ensures stands { (x : Setting) (made : Creation) (done : List Act) (m : PoolMemory) →
            Stands x made done self.old m
            → Stands x made (act.State Cleared ∷ done) self.new m }
        ensures rest { KeepsFrames self.old.memory self.new.memory }
        ensures path { (most : ℕ) → path.IsWithin most self.old.path →
            path.IsWithin (most + 1) self.new.path }
    {
        self.path.reset();
        self.memory.reset();
    }
}
