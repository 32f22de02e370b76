//! What is known of a virtqueue.

/// A queue's sizes and state (`struct vduse_vq_info` of `linux/vduse.h`).
#[derive(Clone, Copy, Debug, PartialEq, Eq)]
pub struct QueueInfo {
    /// The largest size that the device takes.
    pub max: u16,
    /// The size that the driver chose.
    pub num: u32,
    pub desc: u64,
    pub driver: u64,
    pub device: u64,
    pub avail: u16,
    pub ready: bool,
}

/// A split virtqueue: its size, and the addresses of its descriptor table, its available ring and
/// its used ring (virtio 1.2, section 2.7).
#[derive(Clone, Copy, Debug, PartialEq, Eq)]
pub struct RingPlace {
    pub size: u16,
    pub desc: u64,
    pub driver: u64,
    pub device: u64,
}
