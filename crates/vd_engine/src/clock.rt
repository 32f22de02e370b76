//! The clock.

ghost use Rattle.std.specs.Prelude.{◌≡◌, ◌<◌, ◌≤◌, ◌+◌, ◌^◌, MatchOption};
ghost use Rattle.vd_model.specs.Deeds.{clock};
ghost use Rattle.vd_model.specs.ControlTurns.{tick_outcome};

use crate::devices::tick_all;
use crate::engine::Engine;
use vd_answers::Hears;
use vd_model::Item;
use vd_num::Errno;

/// The last second of the clock, 2 to the 40th.
const LAST_SECOND: u64 = 0x100_0000_0000;

/// The time so many seconds later, where the clock goes so far.
fn later(now: u64, seconds: u64) -> Option<u64>
    ensures { MatchOption result (2 ^ 40 < now + seconds) (λ at. (at ≡ now + seconds) × (at ≤ 2 ^ 40)) }
{
    if now > LAST_SECOND || seconds > LAST_SECOND - now {
        return None;
    }
    Some(now + seconds)
}

impl Engine {
    ghost use Rattle.vd_engine.specs.Does.{Does};

    /// Lets time pass for every device.
    pub(crate) fn tick<T: Hears>(&mut self, seconds: u64, told: &mut T)
        requires { T.is_ready told.old }
        ensures { Does (λ said. T.heard told.old said told.new)
            (λ x done. tick_outcome (clock done + seconds))
            self.old self.new }
    {
        match later(self.now, seconds) {
            None => told.refused(Errno::Inval),
            Some(now) => {
                tick_all(&mut self.devices, now);
                self.now = now;
                told.fields(&[Item::Number(now)]);
            }
        }
    }
}
