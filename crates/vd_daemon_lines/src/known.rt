//! What is known of a queue, and of the disk that its requests go to.

use vd_model::{QueueInfo, Window};

/// What is known of a queue: its state, where the device has it, and the features that the driver accepted.
#[derive(Clone, Copy, Debug)]
pub struct KnownQueue {
    pub info: Option<QueueInfo>,
    pub features: u64,
}

/// The window of an image that a device's requests go to, and the features that the device offers. Without a window its
/// count is 0.
#[derive(Clone, Copy, Debug)]
pub struct Drive {
    pub window: Window,
    pub offered: u64,
}
