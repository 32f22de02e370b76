//! Raw lines of the control node: the structs of `linux/vduse.h`.

ghost use Rattle.std.specs.Prelude.{◌≡◌, ◌<◌, ◌^◌};
ghost use Rattle.vd_model.specs.Raw.{control_step};
ghost use Rattle.vd_model.specs.ControlTurns.{raw_outcome};

use crate::engine::Engine;
use std::alloc::AllocError;
use vd_abi::{ApiVersion, DevConfig, DevName};
use vd_answers::{Hears, tell};
use vd_control::check_version;
use vd_num::Errno;

impl Engine {
    ghost use Rattle.vd_engine.specs.Machine.{IsReached};
    ghost use Rattle.vd_engine.specs.Does.{Does, MayDo};

    /// Answers a raw line as the plain line that it stands for, and the version as a number of eight bytes.
    pub(crate) fn raw<T: Hears>(
        &mut self,
        number: u64,
        bytes: &[u8],
        told: &mut T,
    ) -> Result<(), AllocError>
        requires ready { T.is_ready told.old }
        requires reached { IsReached self.old }
        ensures { MayDo (λ said. T.heard told.old said told.new)
            (λ x done. raw_outcome x done (control_step number bytes.now))
            self.old self.new result }
    {
        match number {
            0 => {
                self.get_api_version(bytes, told);
                Ok(())
            }
            1 => {
                self.set_api_version(bytes, told);
                Ok(())
            }
            2 => self.create_dev(bytes, told),
            3 => self.destroy_dev(bytes, told),
            _ => {
                told.refused(Errno::Inval);
                Ok(())
            }
        }
    }

    /// `VDUSE_GET_API_VERSION`.
    fn get_api_version<T: Hears>(&mut self, bytes: &[u8], told: &mut T)
        requires { T.is_ready told.old }
        ensures { Does (λ said. T.heard told.old said told.new)
            (λ x done. raw_outcome x done (control_step 0 bytes.now))
            self.old self.new }
    {
        if bytes.is_empty() {
            told.short_text(&[0; 8]);
        } else {
            told.refused(Errno::Inval);
        }
    }

    /// `VDUSE_SET_API_VERSION`.
    fn set_api_version<T: Hears>(&mut self, bytes: &[u8], told: &mut T)
        requires { T.is_ready told.old }
        ensures { Does (λ said. T.heard told.old said told.new)
            (λ x done. raw_outcome x done (control_step 1 bytes.now))
            self.old self.new }
    {
        match ApiVersion::read(bytes) {
            None => told.refused(Errno::Inval),
            Some(asked) => tell(told, check_version(asked.version)),
        }
    }

    /// `VDUSE_CREATE_DEV`.
    fn create_dev<T: Hears>(&mut self, bytes: &[u8], told: &mut T) -> Result<(), AllocError>
        requires ready { T.is_ready told.old }
        requires reached { IsReached self.old }
        ensures { MayDo (λ said. T.heard told.old said told.new)
            (λ x done. raw_outcome x done (control_step 2 bytes.now))
            self.old self.new result }
    {
        match DevConfig::read(self.alloc, bytes)? {
            None => {
                told.refused(Errno::Inval);
                Ok(())
            }
            Some(config) => self.create(config, told),
        }
    }

    /// `VDUSE_DESTROY_DEV`.
    fn destroy_dev<T: Hears>(&mut self, bytes: &[u8], told: &mut T) -> Result<(), AllocError>
        requires ready { T.is_ready told.old }
        requires reached { IsReached self.old }
        ensures { MayDo (λ said. T.heard told.old said told.new)
            (λ x done. raw_outcome x done (control_step 3 bytes.now))
            self.old self.new result }
    {
        match DevName::read(self.alloc, bytes)? {
            None => told.refused(Errno::Inval),
            Some(gone) => self.destroy(gone.name.as_slice(), told),
        }
        Ok(())
    }
}
