//! Whether what is to be mapped stands in the driver's buffers.
ghost use Rattle.std.specs.Prelude.{◌≡◌, ℕ, List, length, true};
ghost use Rattle.std.specs.List.{All};
ghost use Rattle.vd_model.specs.Acts.{Act};
ghost use Rattle.vd_domain.specs.Handed.{AreOf};
ghost use Rattle.vd_buffers.specs.Stands as kept;
ghost use Rattle.blk_driver.specs.Buffers.{bytes_of};
ghost use Rattle.vd_driver_port.specs.Reached.{IsInBuffer};

use vd_buffers::Buffers;
use vd_model::Want;

/// Whether each range lies in its buffer, and the bytes are theirs, one after another.
pub fn are_theirs(buffers: &Buffers, wants: &[Want], bytes: &[u8]) -> bool
    requires { length bytes.now ≡ bytes_of wants.now }
    ensures inside { result ≡ true → All (IsInBuffer buffers.now) wants.now }
    ensures bytes { result ≡ true → (g : ℕ) (acts : List Act) → kept.Stands g acts buffers.now →
        AreOf g acts wants.now bytes.now }
{
    let (want, wants) = match wants.split_first() {
        Some(parts) => parts,
        None => return true,
    };
    let (text, rest) = bytes.split_at(want.len as usize);
    let held = match buffers.range(want.buffer, want.offset, want.len) {
        Ok(held) => held,
        Err(_) => return false,
    };
    if held != text {
        return false;
    }
    are_theirs(buffers, wants, rest)
}
