//! How much memory a device has.

/// How much memory a device has: so many slots of 4,096 bytes of bounce memory, then coherent memory up to slot `iova`;
/// a page has `per_page` slots, 1 or 16.
#[derive(Clone, Copy, Debug, PartialEq, Eq)]
pub struct Sizes {
    pub bounce: u32,
    pub iova: u32,
    pub per_page: u32,
}
