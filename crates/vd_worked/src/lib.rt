//! Worked sessions: script lines with the reply to each, checked on the definitions alone.
//!
//! No code of the engine stands under them: the definitions of `vd_model` compute each reply, and
//! the contract below says that it is the one that stands in `specs/Sessions.antt` as text.
#![tactic(auto)]

#[cfg(test)]
mod tests;

ghost use Rattle.vd_worked.specs.Sessions.{BouncedWrite, BusAndCoherent, ControlNode, DriverRing, EmptyInput, FirstLoadTwoDevices, FirstLoad, FramesBetweenDevices, FullBounce, HeldBySession, IoctlFeatures, IoctlRefusals, Kicks, LargePage, LookupAndReset, MapRefusals, OldBytesShow, PlacementLarge, Placement, RawMessages, AreaRegistration, Requeue, ShortTail, TimeoutNone, Timeout, WalkFaults, HostileAbsentPage, HostileAddressPastTheEnd, HostileIndexTooFar, HostileNoRequest, HostileRingNowhere, DaemonLoss, WholeSessionOwned, WholeSession, FailingImage};

/// The definitions answer each worked session as it stands in `specs/Sessions.antt`.
pub fn sessions()
    ensures bounced_write { BouncedWrite }
    ensures bus_and_coherent { BusAndCoherent }
    ensures control_node { ControlNode }
    ensures driver_ring { DriverRing }
    ensures empty_input { EmptyInput }
    ensures first_load_two_devices { FirstLoadTwoDevices }
    ensures first_load { FirstLoad }
    ensures frames_between_devices { FramesBetweenDevices }
    ensures full_bounce { FullBounce }
    ensures held_by_session { HeldBySession }
    ensures ioctl_features { IoctlFeatures }
    ensures ioctl_refusals { IoctlRefusals }
    ensures kicks { Kicks }
    ensures large_page { LargePage }
    ensures lookup_and_reset { LookupAndReset }
    ensures map_refusals { MapRefusals }
    ensures old_bytes_show { OldBytesShow }
    ensures placement_large { PlacementLarge }
    ensures placement { Placement }
    ensures raw_messages { RawMessages }
    ensures registration { AreaRegistration }
    ensures requeue { Requeue }
    ensures short_tail { ShortTail }
    ensures timeout_none { TimeoutNone }
    ensures timeout { Timeout }
    ensures walk_faults { WalkFaults }
    ensures hostile_absent_page { HostileAbsentPage }
    ensures hostile_address_past_the_end { HostileAddressPastTheEnd }
    ensures hostile_index_too_far { HostileIndexTooFar }
    ensures hostile_no_request { HostileNoRequest }
    ensures hostile_ring_nowhere { HostileRingNowhere }
    ensures daemon_loss { DaemonLoss }
    ensures whole_session_owned { WholeSessionOwned }
    ensures whole_session { WholeSession }
    ensures failing_image { FailingImage }
{}
