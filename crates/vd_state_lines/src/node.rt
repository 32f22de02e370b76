//! The daemon's lines.

ghost use Rattle.std.specs.Prelude.{◌≡◌, ◌+◌, ◌-◌, ◌^◌, ◌∷◌, [], ℕ, List, true};
ghost use Rattle.vd_model.specs.declared.answer.Answer.TheVariants.{Done};
ghost use Rattle.vd_model.specs.Creation.{Creation};
ghost use Rattle.vd_model.specs.Acts.{Act, state_acts};
ghost use Rattle.vd_model.specs.NodeTurns.{plain_turn, vqinfo_turn, kicks_turn, info_items};
ghost use Rattle.vd_state.specs.Kept.{CountsWithin};
ghost use Rattle.vd_answers.specs.Tells.{Tells};
ghost use Rattle.vd_state_lines.specs.After.{StateBefore, StateAfter};
ghost use Rattle.vd_state_lines.specs.Forms.{is_node_line_of_state};

use vd_answers::{Hears, tell};
use vd_model::{Item, NodeStep, QueueInfo, Tag};
use vd_num::Errno;
use vd_state::State;

/// Tells what is known of a queue.
fn tell_info<T: Hears>(info: &QueueInfo, told: &mut T)
    requires { T.is_ready told.old }
    ensures { T.heard told.old (Done (info_items info.now)) told.new }
{
    told.fields(&[
        Item::Word(Tag::Num),
        Item::Number(u64::from(info.num)),
        Item::Word(Tag::Desc),
        Item::Address(info.desc),
        Item::Word(Tag::Driver),
        Item::Address(info.driver),
        Item::Word(Tag::Device),
        Item::Address(info.device),
        Item::Word(Tag::Avail),
        Item::Number(u64::from(info.avail)),
        Item::Word(Tag::Ready),
        Item::Number(u64::from(info.ready)),
    ]);
}

/// Tells what is known of a queue, if it is there.
fn vqinfo<T: Hears>(state: &State, queue: u32, told: &mut T)
    requires { T.is_ready told.old }
    ensures line { (made : Creation) (acts : List Act) → StateBefore made acts state.now →
        Tells (λ said. T.heard told.old said told.new) (vqinfo_turn made (state_acts acts) queue)
        (StateAfter made acts state.now) }
{
    match state.info(queue) {
        Ok(info) => tell_info(&info, told),
        Err(errno) => told.refused(errno),
    }
}

/// Takes the count of a queue's kick file.
fn kicks<T: Hears>(state: &mut State, queue: u32, told: &mut T)
    requires { T.is_ready told.old }
    ensures line { (made : Creation) (acts : List Act) → StateBefore made acts state.old →
        Tells (λ said. T.heard told.old said told.new) (kicks_turn made (state_acts acts) queue)
        (StateAfter made acts state.new) }
    ensures counts { (most : ℕ) → CountsWithin most state.old → CountsWithin most state.new }
{
    match state.take_kicks(queue) {
        Ok(Some(count)) => told.fields(&[Item::Number(count)]),
        Ok(None) => told.refused(Errno::Noent),
        Err(errno) => told.refused(errno),
    }
}

/// Answers a line of the node on the state. That a session is open was tested before.
pub fn node_line<T: Hears>(state: &mut State, step: &NodeStep, told: &mut T)
    requires ready { T.is_ready told.old }
    requires form { is_node_line_of_state step.now ≡ true }
    requires room { CountsWithin (2 ^ 62 - 1) state.old }
    ensures line { (made : Creation) (acts : List Act) → StateBefore made acts state.old →
        Tells (λ said. T.heard told.old said told.new) (plain_turn made acts step.now)
        (StateAfter made acts state.new) }
    ensures counts { (most : ℕ) → CountsWithin most state.old → CountsWithin (most + 1) state.new }
{
    match step {
        NodeStep::Features => told.fields(&[Item::Address(state.features())]),
        NodeStep::ConfigIrq => tell(told, state.inject(None)),
        NodeStep::VqSetup { queue, max } => tell(told, state.set_max(*queue, *max)),
        NodeStep::VqInfo { queue } => vqinfo(state, *queue, told),
        NodeStep::KickFd { queue, flag } => tell(told, state.set_kick_file(*queue, *flag)),
        NodeStep::Kicks { queue } => kicks(state, *queue, told),
        NodeStep::Irq { queue } => tell(told, state.inject(Some(*queue))),
        _ => unreachable!(),
    }
}
