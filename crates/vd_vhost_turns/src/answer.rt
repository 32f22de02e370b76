//! Lines, answered one after another.

ghost use Rattle.std.specs.Prelude.{◌≡◌, ◌≤◌, ℕ, List, [], IfOk, OnErr, is_some};
ghost use Rattle.vd_vhost_model.specs.GuestTable.{VhostAct};
ghost use Rattle.vd_vhost_model.specs.VhostLines.{vhost_reading};
ghost use Rattle.vd_vhost.specs.After.{IsAfter};
ghost use Rattle.vd_vhost_turns.specs.Answered.{Answered};

use crate::reply::reply_to;
use std::alloc::{AllocError, Global};
use std::marker::Model;
use vd_replies::Printed;
use vd_vhost::Vhost;
use vd_vhost_lines::{LineError, read_vhost_line};

/// A bus that answers lines, and the reply to the last of them. Room for what a line spells and for its reply is
/// used again.
#[derive(Drop)]
pub struct VhostLines {
    alloc: Global,
    bus: Vhost,
    scratch: Vec<u8>,
    reply: Printed,
}

impl Model for VhostLines {
    ghost use Rattle.vd_vhost_turns.specs.Answered.{Answering};

    ghost Value = { Answering };

    ghost view = { λ l. record { bus = l.bus; reply = l.reply.bytes.items } };
}

impl VhostLines {
    /// It answers with a bus over a memory of so many zero bytes: no table, no messages, the time 0.
    pub fn new(alloc: Global, bytes: u64) -> Result<VhostLines, AllocError>
        requires some { 1 ≤ bytes }
        requires fits { bytes ≤ 67108864 }
        ensures { IfOk result (λ lines. IsAfter bytes [] lines.bus) }
    {
        Ok(VhostLines {
            alloc,
            bus: Vhost::new(alloc, bytes)?,
            scratch: Vec::new(alloc),
            reply: Printed {
                bytes: Vec::new(alloc),
            },
        })
    }

    /// Answers a line: `false` exactly where it isn't in the grammar. Without memory the bus is as before.
    pub fn answer(&mut self, line: &[u8]) -> Result<bool, AllocError>
        ensures read { IfOk result (λ known. known ≡ is_some (vhost_reading line.now)) }
        ensures line { (size : ℕ) (done : List VhostAct) → IsAfter size done self.old.bus →
            IfOk result (Answered size done (vhost_reading line.now) self.old.bus self.new) }
        ensures err { OnErr result (self.new.bus ≡ self.old.bus) }
    {
        match read_vhost_line(self.alloc, &mut self.scratch, line) {
            Err(LineError::Bad) => Ok(false),
            Err(LineError::Memory) => Err(AllocError),
            Ok(None) => {
                self.reply.bytes.clear();
                Ok(true)
            }
            Ok(Some(step)) => {
                reply_to(&mut self.bus, &step, &mut self.reply)?;
                Ok(true)
            }
        }
    }

    /// The reply to the line that was answered last: its reply line, line feed included; nothing for an empty line
    /// and a comment.
    pub fn reply(&self) -> &[u8]
        ensures { result.now ≡ self.now.reply }
    {
        self.reply.bytes.as_slice()
    }
}
