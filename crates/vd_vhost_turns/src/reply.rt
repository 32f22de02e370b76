//! The reply to a step.

ghost use Rattle.std.specs.Prelude.{◌≡◌, ◌≤◌, ◌+◌, ◌∷◌, ◌++◌, [], ℕ, List, OnErr, OnOk, length};
ghost use Rattle.vd_model.specs.Replies.{address_text};
ghost use Rattle.vd_digits.specs.Adds.{Adds, HasRoom};
ghost use Rattle.vd_replies.specs.declared.printed.TheConstants.{ROOM as REPLY_ROOM};
ghost use Rattle.vd_vhost_model.specs.declared.step.VhostAnswer.TheVariants.{Perm};
ghost use Rattle.vd_vhost_model.specs.GuestTable.{VhostAct};
ghost use Rattle.vd_vhost_model.specs.VhostLines.{vhost_reply_line};
ghost use Rattle.vd_vhost_model.specs.VhostTurns.{vhost_turn};
ghost use Rattle.vd_vhost.specs.After.{IsAfter};
ghost use Rattle.vd_vhost_turns.specs.Replied.{Replied};

use std::alloc::AllocError;
use vd_digits::{ADDRESS_LEN, write_hex};
use vd_replies::{Printed, ROOM};
use vd_vhost::Vhost;
use vd_vhost_model::VhostStep;

/// Appends bytes.
fn put(into: &mut Vec<u8>, bytes: &[u8])
    requires { HasRoom (length bytes.now) into.old }
    ensures { Adds into.old into.new bytes.now (length bytes.now) }
{
    into.extend_from_slice(bytes).unwrap();
}

/// A space, `0x` and the address's digits.
fn put_address(into: &mut Vec<u8>, address: u64)
    requires { HasRoom 41 into.old }
    ensures { Adds into.old into.new (32 ∷ address_text address) 41 }
{
    let mut buffer = [b' '; ADDRESS_LEN];
    let at = write_hex(address, &mut buffer);
    buffer[at - 1] = b'x';
    buffer[at - 2] = b'0';
    buffer[at - 3] = b' ';
    put(into, &buffer[at - 3..]);
}

/// Appends the reply to an access that a region doesn't permit, at its first address.
fn put_perm(at: u64, reply: &mut Printed)
    requires { HasRoom REPLY_ROOM reply.old.bytes }
    ensures { reply.new.bytes.items ≡ reply.old.bytes.items ++ vhost_reply_line (Perm at) }
{
    put(&mut reply.bytes, b"perm");
    put_address(&mut reply.bytes, at);
    reply.bytes.push_reserved(b'\n');
}

/// Empties the reply, and takes room for the next one.
fn clear(reply: &mut Printed) -> Result<(), AllocError>
    ensures none { OnOk result (reply.new.bytes.items ≡ []) }
    ensures room { OnOk result (HasRoom REPLY_ROOM reply.new.bytes) }
{
    reply.bytes.clear();
    reply.bytes.reserve(ROOM)
}

/// Does a step, and makes `reply` its reply line. Without memory the bus is as before.
pub fn reply_to(
    bus: &mut Vhost,
    step: &VhostStep<'_>,
    reply: &mut Printed,
) -> Result<(), AllocError>
    ensures line { (size : ℕ) (done : List VhostAct) → IsAfter size done bus.old →
        OnOk result (Replied size done (vhost_turn size done step.now) bus.new reply.new.bytes.items) }
    ensures err { OnErr result (bus.new ≡ bus.old) }
{
    clear(reply)?;
    match bus.tell(step, reply)? {
        None => Ok(()),
        Some(at) => {
            put_perm(at, reply);
            Ok(())
        }
    }
}
