//! The laws together.

ghost use Rattle.vd_model.specs.Setting.{Setting};
ghost use Rattle.vd_model.specs.History.{History};
ghost use Rattle.vd_laws.specs.Laws.{Laws};

/// Every law holds of every history.
pub fn laws()
    ensures { (x : Setting) (h : History) → Laws x h }
{}
