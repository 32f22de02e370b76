//! The order of a chain's parts.
ghost use Rattle.std.specs.Prelude.{◌≡◌, ◌&&◌, not, false};
ghost use Rattle.vd_model.specs.RingTurns.{is_out_of_order};

use vd_model::Part;

/// Whether a part that the device reads comes right after one that it writes.
fn breaks_order(written: bool, part: &Part) -> bool
    ensures { result ≡ (written && not part.now.writable) }
{
    written && !part.writable
}

/// Whether a part that the device reads comes after one that it writes (virtio 1.2, section 2.7.4.2).
pub fn is_out_of_order(parts: &[Part]) -> bool
    ensures { result ≡ is_out_of_order parts.now }
{
    let mut written = false;
    for part in parts {
        if breaks_order(written, part) {
            return true;
        }
        written = part.writable;
    }
    false
}
