//! What goes over a mapping.

ghost use Rattle.vd_model.specs.Setting.{Setting};
ghost use Rattle.vd_model.specs.History.{History};
ghost use Rattle.vd_transfer_laws.specs.TransferInstances.{TransferInstances};
ghost use Rattle.vd_transfer_laws.specs.TransferLaw.{TransferLaw};

/// A mapping to the device that isn't synced again shows the driver's bytes of the time of its map,
/// and one from the device gives a direct transfer of what a daemon stored, as long as nobody else
/// wrote them since.
pub fn transfer_law()
    ensures { (x : Setting) (h : History) → TransferLaw x h }
{}

/// The conditions of that law are met by small lists of acts, and broken by a poke of the byte.
pub fn instances_of_transfer()
    ensures { TransferInstances }
{}
