//! Features by the number of their bit.
ghost use Rattle.std.specs.Prelude.{◌≡◌, ◌<◌};
ghost use Rattle.vd_model.specs.Creation.{has_feature};

/// The driver uses indirect tables (`VIRTIO_F_RING_INDIRECT_DESC`).
pub const INDIRECT_DESC: u32 = 28;

/// Each side says of which index it wants to be told (`VIRTIO_F_RING_EVENT_IDX`).
pub const EVENT_IDX: u32 = 29;

pub fn has_feature(features: u64, bit: u32) -> bool
    requires { bit < 64 }
    ensures { result ≡ has_feature features bit }
{
    (features >> bit) % 2 == 1
}
