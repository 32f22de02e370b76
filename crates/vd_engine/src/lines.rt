//! Lines on a device and on its queues.

ghost use Rattle.std.specs.Prelude.{List, ◌≡◌, ◌<◌, ◌≤◌, ◌^◌, true, false, IsOk, IfOk, OnErr};
ghost use Rattle.vd_io.specs.Told.{Rose};
ghost use Rattle.vd_model.specs.Setting.{Setting};
ghost use Rattle.vd_model.specs.Deeds.{Deed, device_view, acts_of_device};
ghost use Rattle.vd_model.specs.History.{device_outcome, device_turn, device_queue_turn};
ghost use Rattle.vd_device.specs.Frugal.{takes_no_memory};

use crate::devices::place_of;
use crate::engine::Engine;
use crate::windows::drive_of;
use std::alloc::AllocError;
use vd_answers::Hears;
use vd_instance::QueueLine;
use vd_io::Image;
use vd_model::{DevStep, QueueStep};
use vd_num::Errno;

impl Engine {
    ghost use Rattle.vd_instance.specs.Image.{is_execute};
    ghost use Rattle.vd_instance.specs.Flushes.{is_flush};
    ghost use Rattle.vd_engine.specs.Flushes.{Counts};
    ghost use Rattle.vd_engine.specs.Image.{IsImage, HoldsOwn};
    ghost use Rattle.vd_engine.specs.Machine.{IsReached, StandsAt};
    ghost use Rattle.vd_engine.specs.Does.{MayDo, Serves};

    /// Answers a line on the device of this name.
    pub(crate) fn on_device<T: Hears>(
        &mut self,
        name: &[u8],
        step: &DevStep<'_>,
        told: &mut T,
    ) -> Result<(), AllocError>
        requires ready { T.is_ready told.old }
        requires room { self.old.asked < 2 ^ 40 }
        requires reached { IsReached self.old }
        ensures line { MayDo (λ said. T.heard told.old said told.new)
            (λ x done. device_outcome name.now (device_turn x (device_view x name.now done) step.now))
            self.old self.new result }
        ensures frugal { takes_no_memory step.now ≡ true → IsOk result }
    {
        match place_of(&self.devices, name) {
            None => {
                told.refused(Errno::Nodev);
                Ok(())
            }
            Some(place) => {
                let named = &mut self.devices[place];
                named.instance.step(&mut self.pool, self.now, step, told)
            }
        }
    }

    /// Answers a line on a queue of the device of this name, and whether the image failed at it.
    pub(crate) fn on_queue<I: Image, T: Hears>(
        &mut self,
        disk: &mut I,
        name: &[u8],
        step: &QueueStep,
        told: &mut T,
    ) -> Result<bool, AllocError>
        requires ready { T.is_ready told.old }
        requires room { self.old.asked < 2 ^ 40 }
        requires reached { IsReached self.old }
        requires disk { I.size disk.old ≡ self.old.sectors }
        ensures line { Serves (λ said. T.heard told.old said told.new)
            (λ x done failed. device_outcome name.now
            (device_queue_turn x name.now (device_view x name.now done) failed step.now)) (is_execute step.now)
            self.old self.new (I.size disk.old) (I.content disk.old) (I.content disk.new) result }
        ensures only_execute { is_execute step.now ≡ false →
            (disk.new ≡ disk.old) × IfOk result (λ failed. failed ≡ false) }
        ensures kept { OnErr result (disk.new ≡ disk.old) }
        ensures size { I.size disk.new ≡ I.size disk.old }
        ensures later { I.faults disk.old ≤ I.faults disk.new }
        ensures cause { IfOk result (λ failed. failed ≡ true → Rose (I.faults disk.old) (I.faults disk.new)) }
        ensures flushed { (x : Setting) (done : List Deed) → StandsAt x done self.old.asked self.old →
            HoldsOwn x done → IsImage x done (I.size disk.old) (I.content disk.old) →
            Counts result (λ failed. is_flush x (acts_of_device name.now done) step.now
            (device_queue_turn x name.now (device_view x name.now done) failed step.now).answer)
            (I.flushes disk.old) (I.flushes disk.new) }
        ensures flushes { I.flushes disk.old ≤ I.flushes disk.new }
    {
        match place_of(&self.devices, name) {
            None => {
                told.refused(Errno::Nodev);
                Ok(false)
            }
            Some(place) => {
                let window = drive_of(&self.windows, name);
                let line = QueueLine { step, window };
                let named = &mut self.devices[place];
                named.instance.queue_step(&mut self.pool, disk, line, told)
            }
        }
    }
}
