//! What the image holds.

ghost use Rattle.vd_model.specs.Setting.{Setting};
ghost use Rattle.vd_model.specs.History.{History};
ghost use Rattle.vd_laws.specs.ImageInstances.{ImageInstances};
ghost use Rattle.vd_laws.specs.ImageLaw.{ImageLaw};

/// A window of the image holds what its own name's devices stored there, and nothing of others.
pub fn image_content()
    ensures { (x : Setting) (h : History) → ImageLaw x h }
{}

/// The law says something of a small history.
pub fn instances_of_image()
    ensures { ImageInstances }
{}
