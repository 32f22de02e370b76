//! The bytes that a ring and its requests have.

ghost use Rattle.vd_model.specs.Setting.{Setting};
ghost use Rattle.vd_model.specs.History.{History};
ghost use Rattle.vd_model.specs.Memory.{Memory};
ghost use Rattle.vd_ring_bytes.specs.FirmLaw.{FirmLaw};
ghost use Rattle.vd_ring_bytes.specs.IndirectLaw.{IndirectLaw};
ghost use Rattle.vd_ring_bytes.specs.UnmapLaw.{UnmapLaw};

/// A byte past bounce memory, or in a live mapping, stays while acts put nothing there and take no
/// such mapping away.
pub fn firm_law()
    ensures { (x : Setting) (h : History) → FirmLaw x h }
{}

/// The trace of a descriptor that names a table is that of the table's parts where tables were
/// negotiated, and else ends in no chain.
pub fn indirect_law()
    ensures { (m : Memory) → IndirectLaw m }
{}

/// What stands over a mapping that comes from the device is in its buffer after the ends of a
/// request's mappings.
pub fn unmap_law()
    ensures { (x : Setting) (h : History) → UnmapLaw x h }
{}
