//! The options of a run.

use vd_num::Name;

/// The options of a run: the bytes of a page, 4,096 or 65,536; the slots of 4,096 bytes of each
/// device's bounce memory and of its whole I/O memory; and the image behind its disks, by its
/// sectors or by the bytes of a path.
#[derive(Drop)]
pub struct Options {
    pub page: u32,
    pub bounce_pages: u32,
    pub iova_pages: u32,
    pub sectors: u64,
    pub image: Option<Name>,
}
