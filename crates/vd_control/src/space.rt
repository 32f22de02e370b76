//! The config space of a device.

ghost use Rattle.std.specs.Prelude.{◌≡◌, ◌+◌, ◌≤◌, ◌↔◌, ℕ, List, IsTrue, IfOk, OnOk, OnErr, not, length, slice_range};
ghost use Rattle.std.specs.Result.{IsOkUnless};
ghost use Rattle.vd_model.specs.BusTurns.{is_outside_config, overlay};

use std::marker::Model;
use vd_num::{Bytes, Errno};

/// The config space of a device (virtio 1.2, section 2.5). Contracts see it as the list of its bytes.
#[derive(Debug, Drop)]
pub struct ConfigSpace {
    held: Vec<u8>,
}

impl Model for ConfigSpace {
    ghost Value = { List ℕ };

    ghost view = { λ s. s.held.items };
}

/// Whether an access has no byte, or some outside a space of `size` bytes.
fn is_outside(size: usize, offset: u64, len: u64) -> bool
    ensures { (space : List ℕ) → length space ≡ size → result ≡ is_outside_config space offset len }
{
    let size = size as u64;
    len == 0 || len > size || offset > size - len
}

fn put(into: &mut [u8], at: usize, bytes: &[u8])
    requires { at + length bytes.now ≤ length into.old }
    ensures { into.new ≡ overlay into.old at bytes.now }
{
    into[at..at + bytes.len()].copy_from_slice(bytes);
}

impl ConfigSpace {
    /// A space of these bytes.
    pub fn new(bytes: Bytes) -> Self
        ensures { result ≡ bytes }
    {
        ConfigSpace {
            held: bytes.into_vec(),
        }
    }

    /// So many bytes from `offset` on.
    pub fn get(&self, offset: u64, len: u64) -> Result<&[u8], Errno>
        ensures refused { (result ≡ Err Errno.Inval) ↔ IsTrue (is_outside_config self.now offset len) }
        ensures only { IsOkUnless result Errno.Inval }
        ensures ok { IfOk result (λ bytes. bytes.now ≡ slice_range self.now offset (offset + len)) }
    {
        if is_outside(self.held.len(), offset, len) {
            return Err(Errno::Inval);
        }
        let at = offset as usize;
        Ok(&self.held[at..at + len as usize])
    }

    /// Fills `out` with the bytes from `offset` on.
    pub fn read(&self, offset: u64, out: &mut [u8]) -> Result<(), Errno>
        ensures refused { (result
            ≡ Err Errno.Inval) ↔ IsTrue (is_outside_config self.now offset (length out.old)) }
        ensures only { IsOkUnless result Errno.Inval }
        ensures ok { OnOk result (out.new ≡ slice_range self.now offset (offset + length out.old)) }
        ensures err { OnErr result (out.new ≡ out.old) }
    {
        if is_outside(self.held.len(), offset, out.len() as u64) {
            return Err(Errno::Inval);
        }
        let at = offset as usize;
        out.copy_from_slice(&self.held[at..at + out.len()]);
        Ok(())
    }

    /// Puts `bytes` in place of those from `offset` on.
    pub fn write(&mut self, offset: u64, bytes: &[u8]) -> Result<(), Errno>
        ensures refused { (result
            ≡ Err Errno.Inval) ↔ IsTrue (is_outside_config self.old offset (length bytes.now)) }
        ensures only { IsOkUnless result Errno.Inval }
        ensures ok { OnOk result (self.new ≡ overlay self.old offset bytes.now) }
        ensures err { OnErr result (self.new ≡ self.old) }
    {
        if is_outside(self.held.len(), offset, bytes.len() as u64) {
            return Err(Errno::Inval);
        }
        put(self.held.as_mut_slice(), offset as usize, bytes);
        Ok(())
    }
}
