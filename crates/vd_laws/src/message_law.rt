//! What becomes of control messages.

ghost use Rattle.vd_model.specs.Setting.{Setting};
ghost use Rattle.vd_model.specs.History.{History};
ghost use Rattle.vd_laws.specs.MessageInstances.{MessageInstances};
ghost use Rattle.vd_laws.specs.MessageLaw.{MessageLaw};

/// Each message is answered at most once, comes to a daemon in the order of ids and again after a
/// close, and fails only by a reply or a timeout.
pub fn messages()
    ensures { (x : Setting) (h : History) → MessageLaw x h }
{}

/// Each part of the law says something of small histories.
pub fn instances_of_messages()
    ensures { MessageInstances }
{}
