//! The driver's side of block requests on a queue (virtio 1.2, sections 2.7 and 5.2): it places a request's buffers where its
//! device sees them and its chain in the ring, and takes it back once the device has used it.
//! `Dma` is what it asks of its device beside the ring's memory. Where that stands for the acts of a device, each call says
//! which acts it adds; where the memory tells its bytes, each call says exactly what it answers and leaves.
#![tactic(auto)]

mod ask;
mod dma;
mod driver;
mod features;
mod mapping;
mod pending;
mod placing;

pub use ask::Ask;
pub use dma::Dma;
pub use driver::{BlkDriver, Made, Polled, SubmitError, Submitted};
pub use vd_model::{Dir, MapError, Part, RingPlace, Want};
pub use vr_driver::{AddError, DriverRing, Published, UsedError};
