//! How a ring is laid out, and when its other side wants to be told.
ghost use Rattle.std.specs.Prelude.{◌≡◌, ◌+◌, ◌*◌, ◌%◌, ◌<◌, ◌≤◌};
ghost use Rattle.vd_model.specs.Rings.{needs_event};

/// Where the available and the used ring stand from the start of the descriptor table, and the bytes of all three.
#[derive(Clone, Copy, Debug, PartialEq, Eq)]
pub struct Layout {
    pub driver_at: u64,
    pub device_at: u64,
    pub bytes: u64,
}

/// The layout of a ring of a size (virtio 1.2, 2.7): the available ring right behind the descriptor table, and the
/// used ring at the next multiple of 4.
pub fn layout_of(size: u16) -> Layout
    requires { size ≤ 32768 }

    ensures driver { result.driver_at ≡ 16 * size }

    // The least multiple of 4 that isn't below the end of the available ring.
    ensures behind { result.driver_at + (6 + 2 * size) ≤ result.device_at }
    ensures near { result.device_at < result.driver_at + (6 + 2 * size) + 4 }
    ensures aligned { result.device_at % 4 ≡ 0 }

    ensures bytes { result.bytes ≡ result.device_at + (6 + 8 * size) }
{
    let size = size as u64;
    let driver_at = 16 * size;
    let device_at = (driver_at + 6 + 2 * size + 3) / 4 * 4;
    Layout {
        driver_at,
        device_at,
        bytes: device_at + 6 + 8 * size,
    }
}

/// Whether an index that went from `old` to `new` passed `event`, the one that the other side asked to be told of
/// (virtio 1.2, 2.7.7.2).
pub fn need_event(event: u16, new: u16, old: u16) -> bool
    ensures { result ≡ needs_event event new old }
{
    new.wrapping_sub(event).wrapping_sub(1) < new.wrapping_sub(old)
}
