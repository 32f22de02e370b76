//! What holds of every list of calls.

ghost use Rattle.std.specs.Prelude.{ℕ, ◌≤◌, List};
ghost use Rattle.vd_model.specs.Messages.{MessageStart, MessageCall, message_run, answers_to};

/// No list of calls has two accepted answers to one id.
pub fn answered_once()
    ensures { (start : MessageStart) (calls : List MessageCall) (id : ℕ) →
        answers_to id (message_run start calls) ≤ 1 }
{}
