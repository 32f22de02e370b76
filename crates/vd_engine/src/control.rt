//! Lines of the control node.

ghost use Rattle.std.specs.Prelude.{◌≡◌, ◌+◌};
ghost use Rattle.vd_model.specs.ControlTurns.{control_outcome, create_outcome, destroy_outcome, dev_outcome};

use crate::devices::{Named, check_new, place_of};
use crate::engine::Engine;
use std::alloc::AllocError;
use vd_abi::DevConfig;
use vd_answers::{Hears, tell};
use vd_control::{check_config, check_version};
use vd_instance::{Instance, Offer};
use vd_model::{ControlStep, Item, Tag, Window};
use vd_num::{Bytes, Errno, Name};

impl Engine {
    ghost use Rattle.vd_engine.specs.Machine.{IsReached, frames_out};
    ghost use Rattle.vd_engine.specs.Does.{Does, MayDo};

    /// Answers a line of the control node or of the clock.
    pub(crate) fn control<T: Hears>(
        &mut self,
        step: &ControlStep<'_>,
        told: &mut T,
    ) -> Result<(), AllocError>
        requires ready { T.is_ready told.old }
        requires reached { IsReached self.old }
        ensures { MayDo (λ said. T.heard told.old said told.new)
            (λ x done. control_outcome x done step.now)
            self.old self.new result }
    {
        match step {
            ControlStep::Version => {
                told.fields(&[Item::Number(0)]);
                Ok(())
            }
            ControlStep::SetVersion { version } => {
                tell(told, check_version(*version));
                Ok(())
            }
            ControlStep::Create {
                name,
                vendor,
                device,
                features,
                queues,
                align,
                config,
            } => {
                let config = DevConfig {
                    name: Name::from_vec(Vec::from_slice(self.alloc, name.as_slice())?),
                    vendor_id: *vendor,
                    device_id: *device,
                    features: *features,
                    vq_num: *queues,
                    vq_align: *align,
                    config: Bytes::from_vec(Vec::from_slice(self.alloc, config.as_slice())?),
                };
                self.create(config, told)
            }
            ControlStep::Destroy { name } => {
                self.destroy(name.as_slice(), told);
                Ok(())
            }
            ControlStep::Dev { name } => self.dev(name.as_slice(), told),
            ControlStep::Control { number, bytes } => self.raw(*number, bytes.as_slice(), told),
            ControlStep::Tick { seconds } => {
                self.tick(*seconds, told);
                Ok(())
            }
            ControlStep::Image { name, first, count } => {
                let window = Window {
                    first: *first,
                    count: *count,
                };
                self.image(name.as_slice(), window, told)
            }
        }
    }

    /// Makes a device.
    pub(crate) fn create<T: Hears>(
        &mut self,
        config: DevConfig,
        told: &mut T,
    ) -> Result<(), AllocError>
        requires ready { T.is_ready told.old }
        requires reached { IsReached self.old }
        ensures { MayDo (λ said. T.heard told.old said told.new)
            (λ x done. create_outcome done config.name config.device_id config.features config.vq_num config.vq_align config.config)
            self.old self.new result }
    {
        match check_config(&config) {
            Err(errno) => {
                told.refused(errno);
                return Ok(());
            }
            Ok(()) => {}
        }
        match check_new(&self.devices, config.name.as_slice()) {
            Err(errno) => {
                told.refused(errno);
                return Ok(());
            }
            Ok(()) => {}
        }
        self.devices.reserve(1)?;
        let DevConfig {
            name,
            features,
            vq_num,
            config,
            ..
        } = config;
        let offer = Offer {
            features,
            queues: vq_num,
            config,
        };
        let instance = Instance::new(self.alloc, name.as_slice(), offer, self.sizes)?;
        self.devices.push_reserved(Named { name, instance });
        told.done();
        Ok(())
    }

    /// Makes a device of one queue that is open, set up and on the bus.
    fn dev<T: Hears>(&mut self, name: &[u8], told: &mut T) -> Result<(), AllocError>
        requires ready { T.is_ready told.old }
        requires reached { IsReached self.old }
        ensures { MayDo (λ said. T.heard told.old said told.new)
            (λ x done. dev_outcome done name.now)
            self.old self.new result }
    {
        match check_new(&self.devices, name) {
            Err(errno) => {
                told.refused(errno);
                return Ok(());
            }
            Ok(()) => {}
        }
        let name = Name::from_vec(Vec::from_slice(self.alloc, name)?);
        self.devices.reserve(1)?;
        let instance = Instance::ready(self.alloc, name.as_slice(), self.sizes)?;
        self.devices.push_reserved(Named { name, instance });
        told.fields(&[Item::Word(Tag::Session), Item::Number(0)]);
        Ok(())
    }

    /// Destroys a device that is neither open nor on the bus.
    pub(crate) fn destroy<T: Hears>(&mut self, name: &[u8], told: &mut T)
        requires ready { T.is_ready told.old }
        requires reached { IsReached self.old }
        ensures line { Does (λ said. T.heard told.old said told.new)
            (λ x done. destroy_outcome done name.now)
            self.old self.new }
        ensures back { self.new.pool.spare + frames_out self.new.devices.items
            ≡ self.old.pool.spare + frames_out self.old.devices.items }
    {
        match place_of(&self.devices, name) {
            None => told.refused(Errno::Nodev),
            Some(place) => {
                if self.devices[place].instance.is_in_use() {
                    told.refused(Errno::Busy);
                    return;
                }
                let Named { name: _, instance } = self.devices.remove(place);
                instance.discard(&mut self.pool);
                told.done();
            }
        }
    }
}
