//! The ioctls, each of which stands for another line or tells a struct.

ghost use Rattle.std.specs.Prelude.{◌≡◌, ◌+◌, ◌-◌, ◌^◌, ◌∷◌, [], ℕ, List, Some};
ghost use Rattle.vd_pool.specs.Memory.{PoolMemory};
ghost use Rattle.vd_model.specs.declared.answer.Item.TheVariants.{Text};
ghost use Rattle.vd_model.specs.Setting.{Setting};
ghost use Rattle.vd_model.specs.Creation.{Creation};
ghost use Rattle.vd_model.specs.Acts.{Act, Node, state_acts};
ghost use Rattle.vd_model.specs.Raw.{ioctl_of, entry_bytes, info_bytes, little_bytes};
ghost use Rattle.vd_model.specs.State.{features_of};
ghost use Rattle.vd_model.specs.Turn.{done_with, lift};
ghost use Rattle.vd_model.specs.AreaTurns.{found_or, capability_of};
ghost use Rattle.vd_model.specs.NodeTurns.{ioctl_turn};
ghost use Rattle.vd_answers.specs.Tells.{Tells, MayTell};
ghost use Rattle.vd_raw.specs.Seen.{seen_as};
ghost use Rattle.vd_control_path.specs.Stands as path;
ghost use Rattle.vd_memory_lines.specs.Rest.{KeepsRest};

use crate::device::Device;
use std::alloc::AllocError;
use vd_answers::Hears;
use vd_num::{Errno, Range, set64};
use vd_pool::Pool;
use vd_raw::{Ioctl, entry_of, info_of, ioctl_in};

/// The eight bytes of a number, the lowest first.
fn number_bytes(number: u64) -> [u8; 8]
    ensures { result ≡ little_bytes 8 number }
{
    let mut bytes = [0; 8];
    set64(&mut bytes, 0, number);
    bytes
}

impl Device {
    ghost use Rattle.vd_device.specs.Stands.{Stands, After, IsHeld, IsWithin};

    /// Tells a region as a struct.
    fn tell_entry<T: Hears>(&self, start: u64, last: u64, told: &mut T)
        requires ready { T.is_ready told.old }
        ensures line { (x : Setting) (made : Creation) (acts : List Act) (m : PoolMemory) →
            Stands x made acts self.now m
            → Tells (λ said. T.heard told.old said told.new) (lift Node (found_or x acts start last
            (λ r. done_with (Text (entry_bytes r) ∷ []) [])))
            (After x made acts self.now m) }
    {
        match self.memory.find_region(Range { start, last }) {
            Ok(region) => told.short_text(&entry_of(&region)),
            Err(errno) => told.refused(errno),
        }
    }

    /// Tells a region and what it can do as a struct.
    fn tell_info<T: Hears>(&self, start: u64, last: u64, told: &mut T)
        requires ready { T.is_ready told.old }
        ensures line { (x : Setting) (made : Creation) (acts : List Act) (m : PoolMemory) →
            Stands x made acts self.now m
            → Tells (λ said. T.heard told.old said told.new) (lift Node (found_or x acts start last
            (λ r. done_with (Text (info_bytes r (capability_of r)) ∷ []) [])))
            (After x made acts self.now m) }
    {
        match self.memory.find_region(Range { start, last }) {
            Ok(region) => told.short_text(&info_of(&region)),
            Err(errno) => told.refused(errno),
        }
    }

    /// Tells the features that the driver accepted, as a number of eight bytes.
    fn tell_features<T: Hears>(&self, told: &mut T)
        requires ready { T.is_ready told.old }
        ensures line { (x : Setting) (made : Creation) (acts : List Act) (m : PoolMemory) →
            Stands x made acts self.now m
            → Tells (λ said. T.heard told.old said told.new)
            (done_with (Text (little_bytes 8 (features_of (state_acts acts))) ∷ []) [])
            (After x made acts self.now m) }
    {
        told.short_text(&number_bytes(self.path.state.features()));
    }

    /// Answers what an ioctl stands for.
    fn meant<T: Hears>(
        &mut self,
        pool: &mut Pool,
        meant: &Ioctl<'_>,
        told: &mut T,
    ) -> Result<(), AllocError>
        requires ready { T.is_ready told.old }
        requires held { IsHeld self.old pool.old }
        requires room { IsWithin (2 ^ 62 - 1) self.old }
        ensures line { (x : Setting) (made : Creation) (acts : List Act) → Stands x made acts self.old pool.old
            → MayTell (λ said. T.heard told.old said told.new)
            (ioctl_turn x made acts (Some (seen_as meant.now))) (After x made acts self.new pool.new) result }
        ensures rest { KeepsRest self.old.memory self.new.memory pool.old pool.new }
        ensures path { (most : ℕ) → path.IsWithin most self.old.path →
            path.IsWithin (most + 1) self.new.path }
    {
        match meant {
            Ioctl::Node(step) => {
                self.plain_node(pool, step, told);
                Ok(())
            }
            Ioctl::Area(step) => self.memory.area_line(pool, step, told),
            Ioctl::Entry { start, last } => {
                self.tell_entry(*start, *last, told);
                Ok(())
            }
            Ioctl::Info { start, last } => {
                self.tell_info(*start, *last, told);
                Ok(())
            }
            Ioctl::Features => {
                self.tell_features(told);
                Ok(())
            }
        }
    }

    /// Answers an ioctl.
    pub(crate) fn ioctl<T: Hears>(
        &mut self,
        pool: &mut Pool,
        number: u64,
        bytes: &[u8],
        told: &mut T,
    ) -> Result<(), AllocError>
        requires ready { T.is_ready told.old }
        requires held { IsHeld self.old pool.old }
        requires room { IsWithin (2 ^ 62 - 1) self.old }
        ensures line { (x : Setting) (made : Creation) (acts : List Act) → Stands x made acts self.old pool.old
            → MayTell (λ said. T.heard told.old said told.new)
            (ioctl_turn x made acts (ioctl_of number bytes.now)) (After x made acts self.new pool.new) result }
        ensures rest { KeepsRest self.old.memory self.new.memory pool.old pool.new }
        ensures path { (most : ℕ) → path.IsWithin most self.old.path →
            path.IsWithin (most + 1) self.new.path }
    {
        match ioctl_in(number, bytes) {
            Some(meant) => self.meant(pool, &meant, told),
            None => {
                told.refused(Errno::Inval);
                Ok(())
            }
        }
    }
}
