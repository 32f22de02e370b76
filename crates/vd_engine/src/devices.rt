//! Devices by their names.

ghost use Rattle.std.specs.Prelude.{◌≡◌, ◌<◌, ℕ, List, OnOk, MatchOption, MatchResult, All, length};
ghost use Rattle.vd_pool.specs.Memory.{PoolMemory};
ghost use Rattle.vd_model.specs.Setting.{Setting};
ghost use Rattle.vd_model.specs.Deeds.{Deed};
ghost use Rattle.vd_model.specs.ControlTurns.{Outcome, new_or, refusal_outcome};
ghost use Rattle.vd_engine.specs.Machine.{NoneIs, FirstIs, AllStand};
ghost use Rattle.vd_engine.specs.Ticked.{AreTicked};

use vd_instance::Instance;
use vd_num::{Errno, Name};

/// At most so many devices are there at once.
const DEVICE_LIMIT: usize = 8;

/// A device and its name.
pub struct Named {
    pub name: Name,
    pub instance: Instance,
}

/// The place of the device of this name.
pub(crate) fn place_of(devices: &[Named], name: &[u8]) -> Option<usize>
    ensures { MatchOption result (NoneIs name.now devices.now) (λ i. FirstIs name.now devices.now i) }
{
    for (i, named) in devices.iter().enumerate() {
        if name == named.name.as_slice() {
            return Some(i);
        }
    }
    None
}

/// Whether a device of this name can be made: none has it, and there are less than eight.
pub(crate) fn check_new(devices: &[Named], name: &[u8]) -> Result<(), Errno>
    ensures none { OnOk result (NoneIs name.now devices.now) }
    ensures refusal { (x : Setting) (done : List Deed) (m : PoolMemory) (outcome : Outcome) →
        AllStand x done devices.now m
        → MatchResult result (λ _. new_or done name.now outcome ≡ outcome)
        (λ errno. new_or done name.now outcome ≡ refusal_outcome errno) }
{
    if place_of(devices, name).is_some() {
        return Err(Errno::Exist);
    }
    if devices.len() >= DEVICE_LIMIT {
        return Err(Errno::Nospc);
    }
    Ok(())
}

/// Tells every device the time.
pub(crate) fn tick_all(devices: &mut [Named], now: u64)
    ensures { AreTicked now devices.old devices.new }
{
    for named in devices.iter_mut() {
        named.instance.tick(now);
    }
}
