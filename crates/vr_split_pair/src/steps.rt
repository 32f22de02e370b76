//! The steps of both sides on the memory of the ring, where they can't fail.
ghost use Rattle.std.specs.Prelude.{◌≡◌, ◌<◌, ◌≤◌, ◌^◌, ◌++◌, ◌==◌, Some, None, Ok, Err, List, length, position, IfOk, OnOk, OnErr, IsOk, false};
ghost use Rattle.std.specs.List.{All};
ghost use Rattle.std.specs.VecDeque.{deque_capacity};
ghost use Rattle.vd_model.specs.Rings.{next16};
ghost use Rattle.vr_split.specs.Reach.{RingInReach};
ghost use Rattle.vr_driver.specs.Side.{unowned_descriptors, next_head, with_chain, all_published};
ghost use Rattle.vr_driver.specs.Driver.{with_parts, with_index, next_completion, side_after};
ghost use Rattle.vr_device.specs.Device.{resumed, next_of, with_used};
ghost use Rattle.vr_split_pair.specs.Lies.{taken_of, without_taken};
ghost use Rattle.vr_split_pair.specs.State.{memory_of, IsTooMany};

use crate::chain::TakenChain;
use std::alloc::{AllocError, Global};
use std::collections::VecDeque;
use vd_model::{Chain, Part, RingPlace};
use vr_chain::WalkError;
use vr_device::{DeviceRing, PopError};
use vr_driver::{AddError, Completion, DriverRing};
use vr_pair::Parts;
use vr_split::VecMem;

/// The device's side of a ring, at the used index that stands there.
pub fn resume(memory: &mut VecMem, place: RingPlace) -> DeviceRing
    requires some { 0 < place.size }
    requires small { place.size ≤ 32768 }
    requires in_reach { RingInReach (Some (memory_of memory.old)) None place }
    ensures device { resumed (memory_of memory.old) place ≡ Ok result }
    ensures memory { memory_of memory.new ≡ memory_of memory.old }
{
    match DeviceRing::resume(memory, place) {
        Ok(device) => device,
        Err(_) => unreachable!(),
    }
}

/// That an address is a word. It does nothing.
fn is_word(_at: u64)
    ensures { _at < 2 ^ 64 }
{}

/// That the address of each part is a word. It does nothing.
fn are_words(parts: &[Part])
    ensures { All (λ part. part.at < 2 ^ 64) parts.now }
{
    for part in parts {
        is_word(part.at);
    }
}

/// Puts a chain into the ring and lets the device see it.
pub fn place(driver: &mut DriverRing, memory: &mut VecMem, parts: &[Part]) -> Result<u16, AddError>
    requires in_reach { RingInReach (Some (memory_of memory.old)) None driver.old.place }
    requires some { 0 < length parts.now }
    ensures room { OnOk result (length parts.now ≤ length (unowned_descriptors driver.old)) }
    ensures head { IfOk result (λ head. head ≡ next_head driver.old (length parts.now)) }
    ensures driver { OnOk result (driver.new ≡ all_published (with_chain driver.old (length parts.now))) }
    ensures memory { OnOk result (memory_of memory.new ≡
        with_index (with_parts (memory_of memory.old) driver.old parts.now) (with_chain driver.old (length parts.now))) }
    ensures words { All (λ part. part.at < 2 ^ 64) parts.now }
    ensures full { OnErr result (IsTooMany driver.old (length parts.now)) }
    ensures err_driver { OnErr result (driver.new ≡ driver.old) }
    ensures err_memory { OnErr result (memory_of memory.new ≡ memory_of memory.old) }
{
    are_words(parts);
    let head = driver.add(memory, parts)?;
    driver.publish(memory, false);
    Ok(head)
}

/// The chain that has waited longest. It stays where it is.
pub fn front(
    alloc: Global,
    device: &DeviceRing,
    memory: &mut VecMem,
) -> Result<Option<Chain>, AllocError>
    requires { IsOk (next_of (memory_of memory.old) device.now false) }
    ensures chain { IfOk result (λ chain. next_of (memory_of memory.old) device.now false ≡ Ok chain) }
    ensures memory { memory_of memory.new ≡ memory_of memory.old }
{
    match device.next(alloc, memory, false) {
        Ok(chain) => Ok(chain),
        Err(PopError::Walk(WalkError::Memory)) => Err(AllocError),
        Err(_) => unreachable!(),
    }
}

/// Moves the device on to the next chain.
pub fn accept(device: &mut DeviceRing, memory: &mut VecMem)
    ensures device { device.new ≡ record device.old { position = next16 device.old.position } }
    ensures memory { memory_of memory.new ≡ memory_of memory.old }
{
    match device.accept(memory, false) {
        Ok(()) => {}
        Err(_) => unreachable!(),
    }
}

/// Gives a chain back.
pub fn push_used(device: &mut DeviceRing, memory: &mut VecMem, head: u16, len: u32)
    requires { RingInReach (Some (memory_of memory.old)) None device.old.place }
    ensures device { device.new ≡ record device.old { used = next16 device.old.used } }
    ensures memory { memory_of memory.new ≡ with_used (memory_of memory.old) device.old head len }
{
    match device.push_used(memory, head, len) {
        Ok(()) => {}
        Err(_) => unreachable!(),
    }
}

/// Takes back the chain that was used first.
pub fn complete(driver: &mut DriverRing, memory: &mut VecMem) -> Option<Completion>
    requires in_reach { RingInReach (Some (memory_of memory.old)) None driver.old.place }
    requires sound { IsOk (next_completion (memory_of memory.old) driver.old) }
    ensures done { next_completion (memory_of memory.old) driver.old ≡ Ok result }
    ensures driver { driver.new ≡ side_after driver.old (Ok result) }
    ensures memory { memory_of memory.new ≡ memory_of memory.old }
{
    match driver.reclaim(memory, false) {
        Ok(done) => done,
        Err(_) => unreachable!(),
    }
}

/// Copies parts behind those in `into`.
pub fn copy(parts: &[Part], into: &mut Parts) -> Result<(), AllocError>
    ensures { OnOk result (into.new ≡ into.old ++ parts.now) }
{
    for part in parts {
        into.push(*part)?;
    }
    Ok(())
}

/// Which of the taken chains has a number.
fn index_of(taken: &VecDeque<TakenChain>, number: u64) -> Option<usize>
    ensures { result ≡ position (λ chain. chain.number == number) taken.now.items }
{
    taken.iter().position(|chain| chain.number == number)
}

/// Takes the chain of a number out of those that are taken.
pub fn take_out(taken: &mut VecDeque<TakenChain>, number: u64) -> Option<TakenChain>
    ensures result { result ≡ taken_of number taken.old.items }
    ensures rest { taken.new.items ≡ without_taken number taken.old.items }
    ensures room { deque_capacity taken.new ≡ deque_capacity taken.old }
{
    let index = index_of(taken, number)?;
    taken.remove(index)
}
