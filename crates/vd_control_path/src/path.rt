//! The control path and its parts.

ghost use Rattle.std.specs.Prelude.{◌≡◌, ◌+◌, ◌-◌, ◌<◌, ◌^◌, ◌∷◌, [], ℕ, List, IfOk};
ghost use Rattle.vd_model.specs.Creation.{Creation};
ghost use Rattle.vd_model.specs.Acts.{Act, Node, Bus, Message_act, Closed, Detached};
ghost use Rattle.vd_model.specs.Acts as acts;
ghost use Rattle.vd_model.specs.State.{Cleared};
ghost use Rattle.vd_model.specs.Messages.{Elapsed, Lost};
ghost use Rattle.vd_model.specs.NodeTurns.{open_turn};
ghost use Rattle.vd_model.specs.BusTurns.{attach_turn};
ghost use Rattle.vd_answers.specs.Tells.{Tells};
ghost use Rattle.vd_state.specs.Kept.{CountsWithin};

use std::alloc::{AllocError, Global};
use vd_answers::Hears;
use vd_control::ConfigSpace;
use vd_model::{Item, Tag};
use vd_msg::Messages;
use vd_num::{Bytes, Errno};
use vd_state::State;

/// The timeout of a device's messages until another is set, in seconds.
const TIMEOUT: u32 = 30;

/// What is kept of a device beside its memory. Contracts see its parts.
#[derive(Drop)]
pub struct ControlPath {
    pub messages: Messages,
    pub state: State,
    pub config: ConfigSpace,
    /// How many sessions were opened, how many ended, and whether one is open.
    pub sessions: u64,
    pub closings: u64,
    pub opened: bool,
    /// It is on the bus.
    pub attached: bool,
}

impl ControlPath {
    ghost use Rattle.vd_control_path.specs.Stands.{PathBefore, PathAfter, IsWithin};

    /// The control path of a new device, which offers these features and has so many queues and
    /// these bytes of config space.
    pub fn new(
        alloc: Global,
        features: u64,
        queues: u32,
        config: Bytes,
    ) -> Result<ControlPath, AllocError>
        ensures stands { IfOk result
            (λ p. PathBefore (record { features = features; queues = queues; config = config }) []
            p) }
        ensures within { IfOk result (λ p. IsWithin 0 p) }
    {
        let state = State::new(alloc, queues, features)?;
        Ok(ControlPath {
            messages: Messages::new(alloc, TIMEOUT, 0),
            state,
            config: ConfigSpace::new(config),
            sessions: 0,
            closings: 0,
            opened: false,
            attached: false,
        })
    }

    /// Tells the time.
    pub fn tick(&mut self, now: u64)
        ensures stands { (made : Creation) (done : List Act) → PathBefore made done self.old →
            PathBefore made (Message_act (Elapsed now) ∷ done) self.new }
        ensures within { (most : ℕ) → IsWithin most self.old → IsWithin most self.new }
    {
        self.messages.tick(now);
    }

    /// Opens a session, unless one is open.
    pub fn open<T: Hears>(&mut self, told: &mut T)
        requires ready { T.is_ready told.old }
        requires room { self.old.sessions < 2 ^ 62 }
        ensures line { (made : Creation) (done : List Act) → PathBefore made done self.old →
            Tells (λ said. T.heard told.old said told.new) (open_turn done)
            (PathAfter made done self.new) }
        ensures within { (most : ℕ) → IsWithin most self.old → IsWithin (most + 1) self.new }
    {
        if self.opened {
            told.refused(Errno::Busy);
            return;
        }
        told.fields(&[Item::Word(Tag::Session), Item::Number(self.sessions)]);
        self.sessions += 1;
        self.opened = true;
    }

    /// Ends the session. The messages that it held are received again.
    pub fn close(&mut self)
        requires { self.old.closings < 2 ^ 62 }
        ensures stands { (made : Creation) (done : List Act) → PathBefore made done self.old →
            PathBefore made (Message_act Lost ∷ Node Closed ∷ done) self.new }
        ensures within { (most : ℕ) → IsWithin most self.old → IsWithin (most + 1) self.new }
    {
        self.closings += 1;
        self.opened = false;
        self.messages.lost();
    }

    /// Puts the device on the bus, once each of its queues has a largest size.
    pub fn attach<T: Hears>(&mut self, told: &mut T)
        requires { T.is_ready told.old }
        ensures line { (made : Creation) (done : List Act) → PathBefore made done self.old →
            Tells (λ said. T.heard told.old said told.new) (attach_turn made done)
            (PathAfter made done self.new) }
        ensures within { (most : ℕ) → IsWithin most self.old → IsWithin most self.new }
    {
        if !self.state.all_set_up() {
            told.refused(Errno::Inval);
            return;
        }
        if self.attached {
            told.refused(Errno::Exist);
            return;
        }
        self.attached = true;
        told.done();
    }

    /// Takes the device off the bus.
    pub fn detach(&mut self)
        ensures stands { (made : Creation) (done : List Act) → PathBefore made done self.old →
            PathBefore made (Bus Detached ∷ done) self.new }
        ensures within { (most : ℕ) → IsWithin most self.old → IsWithin most self.new }
    {
        self.attached = false;
    }

    /// Resets the state. The largest sizes, the offered features and all other parts stay.
    pub fn reset(&mut self)
        requires { CountsWithin (2 ^ 62 - 1) self.old.state }
        ensures stands { (made : Creation) (done : List Act) → PathBefore made done self.old →
            PathBefore made (acts.State Cleared ∷ done) self.new }
        ensures within { (most : ℕ) → IsWithin most self.old → IsWithin (most + 1) self.new }
    {
        self.state.reset();
    }
}
