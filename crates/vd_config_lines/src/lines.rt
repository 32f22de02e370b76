//! The lines, each on the config space alone.

ghost use Rattle.std.specs.Prelude.{List};
ghost use Rattle.vd_model.specs.Creation.{Creation};
ghost use Rattle.vd_model.specs.Acts.{Act};
ghost use Rattle.vd_model.specs.BusTurns.{getconfig_turn};
ghost use Rattle.vd_model.specs.NodeTurns.{setconfig_turn};
ghost use Rattle.vd_answers.specs.Tells.{Tells, MayTell};
ghost use Rattle.vd_config_lines.specs.After.{ConfigBefore, ConfigAfter};

use std::alloc::AllocError;
use vd_answers::{Hears, tell};
use vd_control::ConfigSpace;

/// Puts bytes into the config space, from `offset` on.
pub fn setconfig<T: Hears>(space: &mut ConfigSpace, offset: u64, bytes: &[u8], told: &mut T)
    requires { T.is_ready told.old }
    ensures line { (made : Creation) (acts : List Act) → ConfigBefore made acts space.old →
        Tells (λ said. T.heard told.old said told.new) (setconfig_turn made offset bytes.now)
        (ConfigAfter made acts space.new) }
{
    tell(told, space.write(offset, bytes));
}

/// Tells so many bytes of the config space, from `offset` on; there may be no memory for them.
pub fn getconfig<T: Hears>(
    space: &ConfigSpace,
    offset: u64,
    len: u64,
    told: &mut T,
) -> Result<(), AllocError>
    requires { T.is_ready told.old }
    ensures line { (made : Creation) (acts : List Act) → ConfigBefore made acts space.now →
        MayTell (λ said. T.heard told.old said told.new) (getconfig_turn made acts offset len)
        (ConfigAfter made acts space.now) result }
{
    match space.get(offset, len) {
        Ok(bytes) => told.text(bytes),
        Err(errno) => {
            told.refused(errno);
            Ok(())
        }
    }
}
