//! The addresses of a ring's fields, modulo 2^64 (virtio 1.2, 2.7.6 and 2.7.8).
ghost use Rattle.std.specs.Prelude.{◌≡◌, ◌+◌, ◌*◌, ◌<◌, ◌≤◌};
ghost use Rattle.vd_model.specs.Rings.{ring_address, available_flags_at, available_index_at, available_slot_at, used_event_at, used_flags_at, used_index_at, used_element_at, available_event_at};

use vd_model::RingPlace;

/// The address of entry `i` of the array in a ring, whose entries have so many bytes. The array begins 4 bytes after the
/// ring, and right behind it is the field in which a side asks to be told.
fn entry(ring: u64, bytes: u64, i: u16) -> u64
    requires { bytes ≤ 8 }
    ensures { result ≡ ring_address ring (4 + bytes * i) }
{
    ring.wrapping_add(4 + bytes * i as u64)
}

/// The flags of the available ring.
pub fn available_flags(place: &RingPlace) -> u64
    ensures { result ≡ available_flags_at place.now }
{
    place.driver
}

/// The index of the available ring.
pub fn available_index(place: &RingPlace) -> u64
    ensures { result ≡ available_index_at place.now }
{
    place.driver.wrapping_add(2)
}

/// The slot of the available ring for the head that is made available at `index`.
pub fn available_slot(place: &RingPlace, index: u16) -> u64
    requires { 0 < place.now.size }
    ensures { result ≡ available_slot_at place.now index }
{
    entry(place.driver, 2, index % place.size)
}

/// The field in which the driver asks to be told of a used index.
pub fn used_event(place: &RingPlace) -> u64
    ensures { result ≡ used_event_at place.now }
{
    entry(place.driver, 2, place.size)
}

/// The flags of the used ring.
pub fn used_flags(place: &RingPlace) -> u64
    ensures { result ≡ used_flags_at place.now }
{
    place.device
}

/// The index of the used ring.
pub fn used_index(place: &RingPlace) -> u64
    ensures { result ≡ used_index_at place.now }
{
    place.device.wrapping_add(2)
}

/// The element of the used ring for the chain that is used at `index`.
pub fn used_element(place: &RingPlace, index: u16) -> u64
    requires { 0 < place.now.size }
    ensures { result ≡ used_element_at place.now index }
{
    entry(place.device, 8, index % place.size)
}

/// The field in which the device asks to be told of an available index.
pub fn available_event(place: &RingPlace) -> u64
    ensures { result ≡ available_event_at place.now }
{
    entry(place.device, 8, place.size)
}
