//! The ends of messages.

ghost use Rattle.std.specs.Prelude.{◌≡◌, ◌+◌, ◌-◌, ◌^◌, ◌∷◌, ◌++◌, [], ℕ, List};
ghost use Rattle.vd_pool.specs.Memory.{PoolMemory};
ghost use Rattle.vd_model.specs.declared.answer.Answer.TheVariants.{Done};
ghost use Rattle.vd_model.specs.Setting.{Setting};
ghost use Rattle.vd_model.specs.Creation.{Creation};
ghost use Rattle.vd_model.specs.Acts.{Act, message_acts};
ghost use Rattle.vd_model.specs.Messages.{message_told};
ghost use Rattle.vd_model.specs.BusTurns.{asks_reset, take_turn};
ghost use Rattle.vd_answers.specs.Tells.{Tells};
ghost use Rattle.vd_state.specs.Kept.{CountsWithin};
ghost use Rattle.vd_control_path.specs.Stands as path;
ghost use Rattle.vd_memory_lines.specs.Rest.{KeepsFrames};
ghost use Rattle.vd_device.specs.Ends.{done_acts, failed_acts, end_items};

use crate::device::Device;
use vd_answers::Hears;
use vd_model::{Answer, Body, Item, Tag, TakeAnswer};
use vd_num::Errno;

/// Whether a reset was asked for.
fn asks_reset(body: Body) -> bool
    ensures { result ≡ asks_reset body }
{
    match body {
        Body::Status { value } => value == 0,
        Body::VqState { .. } | Body::Iotlb { .. } => false,
    }
}

/// Tells a message that is done: of a question, the available index that it was answered.
fn tell_end<T: Hears>(body: Body, avail: u16, told: &mut T)
    requires { T.is_ready told.old }
    ensures { T.heard told.old (Done (end_items body avail)) told.new }
{
    match body {
        Body::VqState { .. } => told.fields(&[
            Item::Word(Tag::Avail),
            Item::Number(u64::from(avail)),
        ]),
        Body::Status { .. } | Body::Iotlb { .. } => told.done(),
    }
}

impl Device {
    ghost use Rattle.vd_device.specs.Stands.{Stands, After, IsWithin};

    /// What the end of a failed message does.
    fn fail(&mut self, body: Body)
        requires { CountsWithin (2 ^ 62 - 1) self.old.path.state }
        ensures stands { (x : Setting) (made : Creation) (acts : List Act) (m : PoolMemory) →
            Stands x made acts self.old m
            → Stands x made (failed_acts body ++ acts) self.new m }
        ensures rest { KeepsFrames self.old.memory self.new.memory }
        ensures path { (most : ℕ) → path.IsWithin most self.old.path →
            path.IsWithin (most + 1) self.new.path }
    {
        if !asks_reset(body) {
            return;
        }
        self.clear();
    }

    /// What the end of a message does that is done.
    fn accomplish(&mut self, body: Body)
        requires { CountsWithin (2 ^ 62 - 1) self.old.path.state }
        ensures stands { (x : Setting) (made : Creation) (acts : List Act) (m : PoolMemory) →
            Stands x made acts self.old m
            → Stands x made (done_acts body ++ acts) self.new m }
        ensures rest { KeepsFrames self.old.memory self.new.memory }
        ensures path { (most : ℕ) → path.IsWithin most self.old.path →
            path.IsWithin (most + 1) self.new.path }
    {
        if asks_reset(body) {
            self.clear();
            return;
        }
        match body {
            Body::Status { value } => self.path.state.set_status(value),
            Body::VqState { .. } | Body::Iotlb { .. } => {}
        }
    }

    /// Takes the end of a message, if it has one.
    pub(crate) fn take<T: Hears>(&mut self, id: u32, told: &mut T)
        requires ready { T.is_ready told.old }
        requires room { IsWithin (2 ^ 62 - 1) self.old }
        ensures line { (x : Setting) (made : Creation) (acts : List Act) (m : PoolMemory) →
            Stands x made acts self.old m
            → Tells (λ said. T.heard told.old said told.new)
            (take_turn id (message_told (message_acts acts) id)) (After x made acts self.new m) }
        ensures rest { KeepsFrames self.old.memory self.new.memory }
        ensures path { (most : ℕ) → path.IsWithin most self.old.path →
            path.IsWithin (most + 1) self.new.path }
    {
        match self.path.messages.take(id) {
            TakeAnswer::Pending => told.answer(Answer::Pending),
            TakeAnswer::Unknown => told.refused(Errno::Noent),
            TakeAnswer::Done { body, avail } => {
                self.accomplish(body);
                tell_end(body, avail, told);
            }
            TakeAnswer::FailedByReply { body, result } => {
                self.fail(body);
                told.answer(Answer::FailedReply { result });
            }
            TakeAnswer::FailedByTimeout {
                body,
                deadline,
                now,
            } => {
                self.fail(body);
                told.answer(Answer::FailedTimeout { deadline, now });
            }
        }
    }
}
