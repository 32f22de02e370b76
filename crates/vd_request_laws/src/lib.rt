//! The law on pending block requests: the buffers and the mappings of each are its own.
//!
//! It stands on the model alone.
#![tactic(auto)]

ghost use Rattle.std.specs.Prelude.{ℕ, ◌<◌, List, [], ◌++◌, Bool, true, false, Option, Some, None, ◌≡◌};
ghost use Rattle.std.specs.List.{list_all, list_any};
ghost use Rattle.vd_model.specs.declared.step.DevStep.{DevStep};
ghost use Rattle.vd_model.specs.declared.step.QueueStep.{QueueStep};
ghost use Rattle.vd_model.specs.Setting.{Setting};
ghost use Rattle.vd_model.specs.Creation.{Creation};
ghost use Rattle.vd_model.specs.Acts.{Act, Request};
ghost use Rattle.vd_model.specs.Deeds.{Seen};
ghost use Rattle.vd_model.specs.Queues.{Ring, ring_of, some_pending};
ghost use Rattle.vd_model.specs.History.{dev_turn, queue_turn};
ghost use Rattle.vd_request_laws.specs.Owned.{pending_requests, QueueOwned, AreOwned, HasOwnHeads, is_quiet};

/// What a pending request has is its own, whatever lines were answered. No other request has one of
/// its buffers or mappings, a live mapping of one of its buffers is one of its mappings, and its
/// first buffer stays. It does nothing.
pub fn request_law()
    ensures start { (n : ℕ) → AreOwned [] n }
    // a line on the device, and one on a queue of it
    ensures device { (x : Setting) (made : Creation) (seen : Seen) (step : DevStep) → AreOwned seen.acts made.queues →
        AreOwned ((dev_turn x made seen step).acts ++ seen.acts) made.queues }
    ensures queue { (x : Setting) (made : Creation) (name : List ℕ) (seen : Seen) (failed : Bool)
        (step : QueueStep) → AreOwned seen.acts made.queues →
        ((q : ℕ) (r : Ring) → ring_of seen.acts q ≡ Some r → HasOwnHeads seen.acts q) →
        AreOwned ((queue_turn x made name seen failed step).acts ++ seen.acts) made.queues }
    // acts of these kinds change nothing of it
    ensures quiet { (more acts : List Act) (n : ℕ) → list_all is_quiet more ≡ true →
        AreOwned acts n → AreOwned (more ++ acts) n }
    ensures each { (acts : List Act) (n q : ℕ) → AreOwned acts n → q < n → QueueOwned acts q }
    ensures pending { (passes : Option Request → Bool) → passes None ≡ false → (acts : List Act) (n : ℕ) →
        some_pending passes acts n ≡ list_any (λ r. passes (Some r)) (pending_requests acts n) }
{}
