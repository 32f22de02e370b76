//! Worked sessions of the bus, checked on the definitions alone.

ghost use Rattle.vd_vhost_model.specs.Worked.{TableWithPermissions, TimeoutBreaks};

/// The definitions answer each worked session as it stands in `specs/Worked.antt`.
pub fn worked_sessions()
    ensures permissions { TableWithPermissions }
    ensures timeout { TimeoutBreaks }
{}
