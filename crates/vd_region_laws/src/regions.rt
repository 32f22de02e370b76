//! Where coherent regions lie, and what is put there.

ghost use Rattle.vd_model.specs.Setting.{Setting};
ghost use Rattle.vd_model.specs.History.{History};
ghost use Rattle.vd_region_laws.specs.RegionInstances.{RegionInstances};
ghost use Rattle.vd_region_laws.specs.RegionLaw.{RegionLaw};

/// Live coherent regions share no address, lie past bounce memory and apart from every mapping, and
/// cover all that a driver puts.
pub fn region_law()
    ensures { (x : Setting) (h : History) → RegionLaw x h }
{}

/// A small history in which that law says something.
pub fn instances_of_regions()
    ensures { RegionInstances }
{}
