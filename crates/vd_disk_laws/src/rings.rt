//! Both laws of the requests of a calm history.

ghost use Rattle.vd_model.specs.Setting.{Setting};
ghost use Rattle.vd_model.specs.History.{History};
ghost use Rattle.vd_disk_laws.specs.RingLaws.{RingLaws};

/// The order law and the block law hold of every history, under the conditions that each states.
pub fn ring_laws()
    ensures { (x : Setting) (h : History) → RingLaws x h }
{}
