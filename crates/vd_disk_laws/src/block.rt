//! What became of a request that a poll reports.

ghost use Rattle.vd_model.specs.Setting.{Setting};
ghost use Rattle.vd_model.specs.History.{History};
ghost use Rattle.vd_disk_laws.specs.BlockInstances.{BlockInstances};
ghost use Rattle.vd_disk_laws.specs.BlockLaw.{BlockLaw};

/// In a calm history the first poll that reports a request tells what the disk did with it, and the
/// bytes that a write stored are those that were submitted.
pub fn block_law()
    ensures { (x : Setting) (h : History) → BlockLaw x h }
{}

/// A write and a read in small histories meet the conditions of that law; a store into the ring, and a
/// sector of more than 64 bits, break what it says.
pub fn instances_of_block()
    ensures { BlockInstances }
{}
