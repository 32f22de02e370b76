//! Taking chains from a ring, and giving them back.
ghost use Rattle.std.specs.Prelude.{◌≡◌, ◌≢◌, ◌<◌, ◌≤◌, ℕ, Some, Err, IfOk, IsOk, OnOk, OnErr, true, false};
ghost use Rattle.std.specs.Option.{ForSome};
ghost use Rattle.byteorder.specs.Endian.{little_bytes};
ghost use Rattle.vd_model.specs.Rings.{available_event_at, next16};
ghost use Rattle.vr_split.specs.Mem.{Stores, IsUnchanged};
ghost use Rattle.vr_split.specs.Reach.{RingInReach, KeepsReach};
ghost use Rattle.vr_chain.specs.declared.error.WalkError.TheVariants.{Bus as NotThere};
ghost use Rattle.vr_device.specs.declared.error.PopError.TheVariants.{Walk};
ghost use Rattle.vr_device.specs.Device.{resumed, next_of, IsUnlessMemory, Checks, Pushes, interrupt, element_bytes, with_element};

use crate::error::PopError;
use bitflags::Flags;
use std::alloc::Global;
use std::marker::Model;
use vd_model::{Chain, RingPlace};
use vd_num::{Bus, set32};
use vr_chain::walk;
use vr_split::fields::{
    available_event, available_flags, available_index, available_slot, used_element, used_event,
    used_index,
};
use vr_split::{AvailableFlags, Mem, need_event};

/// The device's side of a ring: which available index it takes next, and which used index it gives next.
#[derive(Debug, Drop)]
pub struct DeviceRing {
    place: RingPlace,
    position: u16,
    used: u16,
}

impl Model for DeviceRing {
    ghost use Rattle.std.specs.Prelude.{◌<◌, ◌≤◌};
    ghost use Rattle.vr_device.specs.Side.{Side};

    ghost Value = { Side };

    ghost view = { λ r. record { place = r.place; position = r.position; used = r.used } };

    ghost invariant = { λ r. (0 < r.place.size) × (r.place.size ≤ 32768) };
}

/// The bytes of a used element (virtio 1.2, section 2.7.8).
fn element(head: u16, len: u32) -> [u8; 8]
    ensures { result ≡ element_bytes head len }
{
    let mut bytes = [0; 8];
    set32(&mut bytes, 0, head as u32);
    set32(&mut bytes, 4, len);
    bytes
}

impl DeviceRing {
    /// A ring that is taken up where its used ring stands: the used index is also the position.
    pub fn resume<M: Mem>(mem: &mut M, place: RingPlace) -> Result<DeviceRing, Bus>
        requires some { 0 < place.size }
        requires small { place.size ≤ 32768 }

        ensures resumed { ForSome (M.told mem.old) (λ m. result ≡ resumed m place) }
        ensures place { IfOk result (λ ring. ring.place ≡ place) }
        ensures in_reach { RingInReach (M.told mem.old) (M.span mem.old) place → IsOk result }

        ensures memory { IsUnchanged M.told M.span M.keeps mem.old mem.new }
    {
        let used = mem.load16(used_index(&place))?;
        Ok(DeviceRing {
            place,
            position: used,
            used,
        })
    }

    /// The chain at the position, if one is available there. The position stays.
    pub fn next<M: Mem>(
        &self,
        alloc: Global,
        mem: &mut M,
        indirect: bool,
    ) -> Result<Option<Chain>, PopError>
        ensures next { ForSome (M.told mem.old) (λ m. IsUnlessMemory result (next_of m self.now indirect)) }

        // With no indirect tables it reads the ring alone.
        ensures in_reach { RingInReach (M.told mem.old) (M.span mem.old) self.now.place → indirect ≡ false
            → (at : ℕ) → result ≢ Err (Walk (NotThere at)) }

        ensures memory { IsUnchanged M.told M.span M.keeps mem.old mem.new }
    {
        let position = self.position;
        let found = mem.load16(available_index(&self.place))?;
        if found == position {
            return Ok(None);
        }
        if found.wrapping_sub(position) > self.place.size {
            return Err(PopError::Ahead {
                found,
                known: position,
            });
        }
        let head = mem.load16(available_slot(&self.place, position))?;
        let chain = walk(alloc, mem, &self.place, head, indirect)?;
        Ok(Some(chain))
    }

    /// Moves the position on by one. With `event_idx` it first writes the new position as the available index that
    /// it wants to be told of.
    pub fn accept<M: Mem>(&mut self, mem: &mut M, event_idx: bool) -> Result<(), Bus>
        ensures moved { OnOk result (self.new ≡ record self.old { position = next16 self.old.position }) }
        ensures stays { OnErr result (self.new ≡ self.old) }

        ensures event { event_idx ≡ true → ForSome (M.told mem.old) (λ m.
            Stores m (available_event_at self.old.place) (little_bytes 2 (next16 self.old.position)) result
            (M.told mem.new)) }
        ensures in_reach { RingInReach (M.told mem.old) (M.span mem.old) self.old.place → IsOk result }
        ensures no_event { event_idx ≡ false → IsOk result }
        ensures no_event_told { event_idx ≡ false → M.told mem.new ≡ M.told mem.old }

        ensures memory { KeepsReach M.told M.span M.keeps mem.old mem.new }
    {
        let next = self.position.wrapping_add(1);
        if event_idx {
            mem.store16(available_event(&self.place), next)?;
        }
        self.position = next;
        Ok(())
    }

    /// Whether the next used element and the used index can be written. It changes nothing.
    pub fn check_used<M: Mem>(&self, mem: &mut M) -> Result<(), Bus>
        ensures checked { ForSome (M.told mem.old) (λ m. Checks m self.now result) }
        ensures in_reach { RingInReach (M.told mem.old) (M.span mem.old) self.now.place → IsOk result }

        ensures memory { IsUnchanged M.told M.span M.keeps mem.old mem.new }
    {
        let mut element = [0; 8];
        mem.load(used_element(&self.place, self.used), &mut element)?;
        mem.load16(used_index(&self.place))?;
        Ok(())
    }

    /// Gives a chain back: it writes the chain's head and how many bytes were written into the next used element, and
    /// then the used index. After a fault nothing is written.
    pub fn push_used<M: Mem>(&mut self, mem: &mut M, head: u16, len: u32) -> Result<(), Bus>
        ensures moved { OnOk result (self.new ≡ record self.old { used = next16 self.old.used }) }
        ensures stays { OnErr result (self.new ≡ self.old) }

        ensures pushed { ForSome (M.told mem.old) (λ m. Pushes m self.old head len result (M.told mem.new)) }
        ensures in_reach { RingInReach (M.told mem.old) (M.span mem.old) self.old.place → IsOk result }

        // The element stands before the index tells of it: in a state between, it is all that was written.
        ensures element_first { OnOk result (ForSome (M.told mem.old) (λ m. (between : M)
            × (M.told between ≡ Some (with_element m self.old head len))
            × M.keeps mem.old between × M.keeps between mem.new)) }

        ensures memory { KeepsReach M.told M.span M.keeps mem.old mem.new }
    {
        self.check_used(mem)?;
        let next = self.used.wrapping_add(1);
        mem.store(used_element(&self.place, self.used), &element(head, len))?;
        mem.store16(used_index(&self.place), next)?;
        self.used = next;
        Ok(())
    }

    /// Whether the driver wants an interrupt for the last chain that was given back (virtio 1.2, section 2.7.7).
    pub fn should_interrupt<M: Mem>(&self, mem: &mut M, event_idx: bool) -> Result<bool, Bus>
        ensures wanted { ForSome (M.told mem.old) (λ m. result ≡ interrupt m self.now event_idx) }
        ensures in_reach { RingInReach (M.told mem.old) (M.span mem.old) self.now.place → IsOk result }

        ensures memory { IsUnchanged M.told M.span M.keeps mem.old mem.new }
    {
        if event_idx {
            let event = mem.load16(used_event(&self.place))?;
            return Ok(need_event(event, self.used, self.used.wrapping_sub(1)));
        }
        let flags = mem.load16(available_flags(&self.place))?;
        Ok(!AvailableFlags::from_bits_retain(flags).contains(AvailableFlags::NO_INTERRUPT))
    }
}
