//! What other devices do doesn't show.

ghost use Rattle.vd_model.specs.Setting.{Setting};
ghost use Rattle.vd_model.specs.History.{History};
ghost use Rattle.vd_laws.specs.IsolationInstances.{IsolationInstances};
ghost use Rattle.vd_laws.specs.IsolationLaw.{IsolationLaw};

/// Two histories that agree on a device answer each line on it alike, but for the lines in which
/// all devices share a limit.
pub fn isolation()
    ensures { (x : Setting) (h : History) → IsolationLaw x h }
{}

/// The law says something of small histories, and its condition on the line is needed.
pub fn instances_of_isolation()
    ensures { IsolationInstances }
{}
