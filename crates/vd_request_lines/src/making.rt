//! The buffers that are made for a request, and taken back where it isn't placed.
ghost use Rattle.std.specs.Prelude.{◌≡◌, ◌+◌, ◌-◌, ◌≤◌, ◌++◌, List, length, take, OnOk, OnErr};
ghost use Rattle.vd_pool.specs.Memory.{PoolMemory};
ghost use Rattle.vd_model.specs.Setting.{Setting};
ghost use Rattle.vd_model.specs.Acts.{Act};
ghost use Rattle.vd_model.specs.DriverTurns.{buffer_limit};
ghost use Rattle.vd_model.specs.RingTurns.{made_len};
ghost use Rattle.vd_buffers.specs.Places.{total_of};
ghost use Rattle.vd_memory_lines.specs.Stands.{Stands};
ghost use Rattle.blk_driver.specs.Asked.{asked_in};
ghost use Rattle.vd_request_lines.specs.Submitting.{AreUsed, made_acts, made_count};

use crate::asking::table_len;
use blk_driver::Ask;
use std::alloc::AllocError;
use vd_buffers::Buffers;
use vd_memory_lines::Memory;

/// Takes the buffers of a request back, which are the newest.
pub fn take_back(buffers: &mut Buffers, indirect: bool)
    requires { made_count indirect ≤ length buffers.old }
    ensures { buffers.new ≡ take (length buffers.old - made_count indirect) buffers.old }
{
    buffers.take_back();
    if indirect {
        buffers.take_back();
    }
}

/// Makes the buffers of a request: one of its header and its status byte, and zeros for the table of its parts. All of them
/// are made, or none is.
pub fn make_buffers(memory: &mut Memory, ask: &Ask, indirect: bool) -> Result<(), AllocError>
    requires used { AreUsed memory.old.buffers }
    requires room { total_of memory.old.buffers + made_len indirect (asked_in ask.now) ≤ buffer_limit }
    ensures made { (x : Setting) (acts : List Act) (m : PoolMemory) → Stands x acts memory.old m →
        OnOk result (Stands x (made_acts indirect ask.now ++ acts) memory.new m) }
    ensures none { (x : Setting) (acts : List Act) (m : PoolMemory) → Stands x acts memory.old m →
        OnErr result (Stands x acts memory.new m) }
    ensures rest { memory.new ≡ record memory.old { buffers = memory.new.buffers } }
{
    memory.buffers.add(&ask.front(0))?;
    if !indirect {
        return Ok(());
    }
    match memory.buffers.zeros(table_len(ask)) {
        Ok(_) => Ok(()),
        Err(AllocError) => {
            take_back(&mut memory.buffers, false);
            Err(AllocError)
        }
    }
}
