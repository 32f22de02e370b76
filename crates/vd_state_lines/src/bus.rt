//! The bus's lines.

ghost use Rattle.std.specs.Prelude.{◌≡◌, ◌+◌, ◌-◌, ◌^◌, ℕ, List, true};
ghost use Rattle.vd_model.specs.Creation.{Creation};
ghost use Rattle.vd_model.specs.Acts.{Act, state_acts};
ghost use Rattle.vd_model.specs.BusTurns.{attached_turn, irqs_turn, vqnum_turn};
ghost use Rattle.vd_state.specs.Kept.{CountsWithin, GenerationCanRise};
ghost use Rattle.vd_state.specs.Stands.{subject};
ghost use Rattle.vd_answers.specs.Tells.{Tells};
ghost use Rattle.vd_state_lines.specs.After.{StateBefore, StateAfter};
ghost use Rattle.vd_state_lines.specs.Forms.{is_bus_line_of_state};

use vd_answers::{Hears, tell};
use vd_model::{BusStep, Item, QueueOrConfig};
use vd_num::Errno;
use vd_state::State;

/// Which queue is meant, and none for the config space.
fn index_of(on: QueueOrConfig) -> Option<u32>
    ensures { subject result ≡ on }
{
    match on {
        QueueOrConfig::Config => None,
        QueueOrConfig::Queue(queue) => Some(queue),
    }
}

/// Chooses a queue's size; no size is above 32 bits.
fn vqnum<T: Hears>(state: &mut State, queue: u32, num: u64, told: &mut T)
    requires ready { T.is_ready told.old }
    requires room { GenerationCanRise state.old queue }
    ensures line { (made : Creation) (acts : List Act) → StateBefore made acts state.old →
        Tells (λ said. T.heard told.old said told.new) (vqnum_turn made (state_acts acts) queue num)
        (StateAfter made acts state.new) }
    ensures counts { (most : ℕ) → CountsWithin most state.old → CountsWithin (most + 1) state.new }
{
    match u32::try_from(num) {
        Ok(num) => tell(told, state.set_num(queue, num)),
        Err(_) => told.refused(Errno::Inval),
    }
}

/// Takes the count of an interrupt.
fn irqs<T: Hears>(state: &mut State, on: QueueOrConfig, told: &mut T)
    requires { T.is_ready told.old }
    ensures line { (made : Creation) (acts : List Act) → StateBefore made acts state.old →
        Tells (λ said. T.heard told.old said told.new) (irqs_turn made (state_acts acts) on)
        (StateAfter made acts state.new) }
    ensures counts { (most : ℕ) → CountsWithin most state.old → CountsWithin most state.new }
{
    match state.take_irqs(index_of(on)) {
        Ok(count) => told.fields(&[Item::Number(count)]),
        Err(errno) => told.refused(errno),
    }
}

/// Answers a line of the bus on the state. What the line needs of the bus was tested before.
pub fn bus_line<T: Hears>(state: &mut State, now: u64, step: &BusStep, told: &mut T)
    requires ready { T.is_ready told.old }
    requires form { is_bus_line_of_state step.now ≡ true }
    requires room { CountsWithin (2 ^ 62 - 1) state.old }
    ensures line { (made : Creation) (acts : List Act) → StateBefore made acts state.old →
        Tells (λ said. T.heard told.old said told.new) (attached_turn made now acts step.now)
        (StateAfter made acts state.new) }
    ensures counts { (most : ℕ) → CountsWithin most state.old → CountsWithin (most + 1) state.new }
{
    match step {
        BusStep::Offered => told.fields(&[Item::Address(state.offered())]),
        BusStep::SetFeatures { features } => tell(told, state.set_features(*features)),
        BusStep::GetStatus => told.fields(&[Item::Number(u64::from(state.status()))]),
        BusStep::VqNum { queue, num } => vqnum(state, *queue, *num, told),
        BusStep::VqAddr {
            queue,
            desc,
            driver,
            device,
        } => tell(told, state.set_addr(*queue, *desc, *driver, *device)),
        BusStep::VqReady { queue, flag } => tell(told, state.set_ready(*queue, *flag)),
        BusStep::SetVqState { queue, avail } => tell(told, state.set_avail(*queue, *avail)),
        BusStep::Kick { queue } => tell(told, state.kick(*queue)),
        BusStep::Callback { on, flag } => tell(told, state.set_callback(index_of(*on), *flag)),
        BusStep::Irqs { on } => irqs(state, *on, told),
        _ => unreachable!(),
    }
}
