//! What turns on a ring begin with.

ghost use Rattle.vd_model.specs.Setting.{Setting};
ghost use Rattle.vd_model.specs.History.{History};
ghost use Rattle.vd_ring_turns.specs.FirstFetchLaw.{FirstFetchLaw};
ghost use Rattle.vd_ring_turns.specs.HandLaw.{HandLaw};

/// Before the first fetch of a block daemon's position on a queue it has finished nothing there.
pub fn first_fetch_law()
    ensures { (x : Setting) (h : History) → FirstFetchLaw x h }
{}

/// Right after the maps of a request the device is shown the bytes of the buffers that go to it.
pub fn hand_law()
    ensures { (x : Setting) (h : History) → HandLaw x h }
{}
