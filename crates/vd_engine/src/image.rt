//! The line that gives a device sectors of the image.

ghost use Rattle.std.specs.Prelude.{◌≡◌, ◌+◌, ◌≤◌, [], ◌∷◌, List, OnOk, MatchResult, None, find};
ghost use Rattle.vd_model.specs.Setting.{Setting};
ghost use Rattle.vd_model.specs.Deeds.{Deed, Given as Has};
ghost use Rattle.vd_model.specs.ControlTurns.{image_outcome, done_outcome, refusal_outcome};
ghost use Rattle.vd_engine.specs.Windows.{has_window};

use crate::devices::place_of;
use crate::engine::Engine;
use crate::windows::{Given, is_beyond, is_taken, window_of};
use std::alloc::AllocError;
use vd_answers::Hears;
use vd_model::Window;
use vd_num::{Errno, Name};

impl Engine {
    ghost use Rattle.vd_engine.specs.Machine.{StandsAt};
    ghost use Rattle.vd_engine.specs.Does.{MayDo};

    /// Whether the device of a name can be given these sectors.
    fn check_window(&self, name: &[u8], first: u64, count: u64) -> Result<(), Errno>
        ensures none { OnOk result (find (has_window name.now) self.entry.now.windows.items ≡ None) }
        ensures inside { OnOk result (first + count ≤ self.entry.now.sectors) }
        ensures refusal { (x : Setting) (done : List Deed) →
            StandsAt x done self.entry.now.asked self.entry.now → MatchResult result
            (λ _. image_outcome x done name.now first count ≡ done_outcome []
            (Has name.now (record { first = first; count = count }) ∷ []))
            (λ errno. image_outcome x done name.now first count ≡ refusal_outcome errno) }
    {
        if place_of(&self.devices, name).is_none() {
            return Err(Errno::Nodev);
        }
        if window_of(&self.windows, name).is_some() {
            return Err(Errno::Exist);
        }
        if count == 0 {
            return Err(Errno::Inval);
        }
        if is_beyond(first, count, self.sectors) {
            return Err(Errno::Nospc);
        }
        if is_taken(&self.windows, first, count) {
            return Err(Errno::Busy);
        }
        Ok(())
    }

    /// Gives the device of a name sectors of the image, which the name keeps.
    pub(crate) fn image<T: Hears>(
        &mut self,
        name: &[u8],
        window: Window,
        told: &mut T,
    ) -> Result<(), AllocError>
        requires { T.is_ready told.old }
        ensures { MayDo (λ said. T.heard told.old said told.new)
            (λ x done. image_outcome x done name.now window.first window.count)
            self.old self.new result }
    {
        match self.check_window(name, window.first, window.count) {
            Err(errno) => {
                told.refused(errno);
                return Ok(());
            }
            Ok(()) => {}
        }
        let name = Name::from_vec(Vec::from_slice(self.alloc, name)?);
        self.windows.reserve(1)?;
        self.windows.push_reserved(Given { name, window });
        told.done();
        Ok(())
    }
}
