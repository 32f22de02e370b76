//! What is known of a queue and of the features that were accepted.

ghost use Rattle.std.specs.Prelude.{◌≡◌, ℕ, List, Option, Some, None, if◌then◌else◌};
ghost use Rattle.vd_model.specs.Creation.{Creation, has_feature};
ghost use Rattle.vd_model.specs.Acts.{Act, state_acts};
ghost use Rattle.vd_model.specs.State.{queue_info};
ghost use Rattle.vd_model.specs.BusTurns.{is_missing};
ghost use Rattle.vd_state_lines.specs.After.{StateBefore};

use vd_model::QueueInfo;
use vd_state::State;

/// The bit of the feature INDIRECT_DESC, and of EVENT_IDX.
const INDIRECT_DESC: u32 = 28;

const EVENT_IDX: u32 = 29;

/// Whether indirect tables were accepted.
pub(crate) fn has_indirect(features: u64) -> bool
    ensures { result ≡ has_feature features 28 }
{
    (features >> INDIRECT_DESC) % 2 == 1
}

/// Whether event indices were accepted.
pub(crate) fn has_event_idx(features: u64) -> bool
    ensures { result ≡ has_feature features 29 }
{
    (features >> EVENT_IDX) % 2 == 1
}

/// What is known of a queue, where the device has it.
pub(crate) fn known(state: &State, queue: u32) -> Option<QueueInfo>
    ensures { (made : Creation) (acts : List Act) → StateBefore made acts state.now
        → result ≡ (if is_missing made queue then None else Some (queue_info (state_acts acts) queue)) }
{
    match state.info(queue) {
        Ok(info) => Some(info),
        Err(_) => None,
    }
}
