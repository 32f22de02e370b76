//! The line that places a block request and publishes it.
ghost use Rattle.std.specs.Prelude.{◌≡◌, ◌+◌, ◌<◌, ◌≤◌, ◌^◌, ◌∷◌, [], ℕ, List, Some, false, if◌then◌else◌};
ghost use Rattle.vd_model.specs.declared.answer.Answer.TheVariants.{Done};
ghost use Rattle.vd_model.specs.declared.answer.Item.TheVariants.{Word, Number};
ghost use Rattle.vd_model.specs.declared.answer.Tag.TheVariants as tag;
ghost use Rattle.vd_model.specs.Setting.{Setting};
ghost use Rattle.vd_model.specs.Creation.{Creation};
ghost use Rattle.vd_model.specs.Acts.{Act, state_acts};
ghost use Rattle.vd_model.specs.State.{features_of};
ghost use Rattle.vd_model.specs.BusTurns.{is_missing};
ghost use Rattle.vd_model.specs.RingTurns.{submit_turn};
ghost use Rattle.vd_memory_lines.specs.Stands.{Stands, IsHeld as IsOut};
ghost use Rattle.vd_answers.specs.Tells.{MayTell};
ghost use Rattle.vd_driver_port.specs.Rest.{KeepsMemory};
ghost use Rattle.vd_request_lines.specs.Known.{IsKnown};
ghost use Rattle.vd_request_lines.specs.Stands.{RequestsStand};
ghost use Rattle.vd_request_lines.specs.After.{After};
ghost use Rattle.vd_request_lines.specs.Asking.{wants_made_buffer};
ghost use Rattle.vd_request_lines.specs.Submitting.{IsUsed};

use crate::asking::{ask_of, want_refusal};
use crate::held::{HeldDriver, KnownDriver};
use crate::placing::placed;
use blk_driver::Submitted;
use std::alloc::AllocError;
use vd_answers::Hears;
use vd_memory_lines::Memory;
use vd_model::{Item, SubmitForm, Tag};
use vd_num::Errno;
use vd_pool::Pool;

/// A block request that is to be placed: what is known of its queue, the line's form, and whether a pending request made the
/// buffer of its range.
#[derive(Clone, Copy)]
pub struct RequestWanted {
    pub queue: KnownDriver,
    pub form: SubmitForm,
    pub busy: bool,
}

/// Tells of a request that was placed.
fn tell_submitted<T: Hears>(told: &mut T, request: &Submitted, buffer: u64)
    requires { T.is_ready told.old }
    ensures { T.heard told.old (Done (Word tag.Head ∷ Number request.now.head ∷ Word tag.Idx ∷ Number request.now.idx
        ∷ Word tag.Kick ∷ Number (if request.now.kick then 1 else 0)
        ∷ Word tag.Buf ∷ Number buffer ∷ Word tag.Map ∷ Number request.now.first_map ∷ [])) told.new }
{
    told.fields(&[
        Item::Word(Tag::Head),
        Item::Number(u64::from(request.head)),
        Item::Word(Tag::Idx),
        Item::Number(u64::from(request.idx)),
        Item::Word(Tag::Kick),
        Item::Number(u64::from(request.kick)),
        Item::Word(Tag::Buf),
        Item::Number(buffer),
        Item::Word(Tag::Map),
        Item::Number(request.first_map),
    ]);
}

/// The same of a queue that has a ring, for the line.
fn submit_on<T: Hears>(
    told: &mut T,
    memory: &mut Memory,
    pool: &mut Pool,
    held: &mut HeldDriver,
    wanted: &RequestWanted,
) -> Result<(), AllocError>
    requires ready { T.is_ready told.old }
    requires held { IsOut memory.old pool.old }
    requires room { memory.old.domain.maps + 4 < 2 ^ 62 }
    requires kept { IsUsed memory.old pool.old (Some held.old) }
    ensures line { (x : Setting) (made : Creation) (acts : List Act) (q : ℕ) →
        Stands x acts memory.old pool.old → RequestsStand acts q (Some held.old) →
        is_missing made q ≡ false → wanted.now.queue.features ≡ features_of (state_acts acts) →
        wanted.now.busy ≡ wants_made_buffer made acts wanted.now.form →
        MayTell (λ said. T.heard told.old said told.new) (submit_turn x made acts q wanted.now.form)
        (After x acts q memory.new pool.new (Some held.new)) result }
    ensures rest { KeepsMemory memory.old memory.new pool.old pool.new }
    ensures maps { memory.new.domain.maps ≤ memory.old.domain.maps + 4 }
{
    let ask = ask_of(&wanted.form);
    if let Some(errno) = want_refusal(&memory.buffers, &ask, wanted.busy) {
        told.refused(errno);
        return Ok(());
    }
    let buffer = memory.buffers.count();
    memory.domain.sees_rings();
    memory.domain.keeps_apart();
    memory.domain.keeps_numbers();
    let found = placed(memory, pool, &mut held.driver, &ask, wanted.queue.features)?;
    memory.domain.sees_rings();
    match found {
        Some(request) => tell_submitted(told, &request, buffer),
        // Too few descriptors are free, a mapping has no place, or the buffers have too many bytes.
        None => told.refused(Errno::Nospc),
    }
    Ok(())
}

/// Places a block request on a queue that has a ring and publishes it; tells its head, the available index, whether the device
/// is to be kicked, and its first buffer and mapping.
pub fn submit<T: Hears>(
    told: &mut T,
    memory: &mut Memory,
    pool: &mut Pool,
    kept: &mut Option<HeldDriver>,
    wanted: &RequestWanted,
) -> Result<(), AllocError>
    requires ready { T.is_ready told.old }
    requires held { IsOut memory.old pool.old }
    requires room { memory.old.domain.maps + 4 < 2 ^ 62 }
    requires kept { IsUsed memory.old pool.old kept.old }
    ensures line { (x : Setting) (made : Creation) (acts : List Act) (q : ℕ) →
        Stands x acts memory.old pool.old → RequestsStand acts q kept.old →
        IsKnown made acts q wanted.now.queue → wanted.now.busy ≡ wants_made_buffer made acts wanted.now.form →
        MayTell (λ said. T.heard told.old said told.new) (submit_turn x made acts q wanted.now.form)
        (After x acts q memory.new pool.new kept.new) result }
    ensures rest { KeepsMemory memory.old memory.new pool.old pool.new }
    ensures maps { memory.new.domain.maps ≤ memory.old.domain.maps + 4 }
{
    if wanted.queue.info.is_none() {
        told.refused(Errno::Inval);
        return Ok(());
    }
    match kept {
        Some(held) => submit_on(told, memory, pool, held, wanted),
        None => {
            told.refused(Errno::Noent);
            Ok(())
        }
    }
}
