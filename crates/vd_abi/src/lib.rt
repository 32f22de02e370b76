//! The structs of `linux/vduse.h` (Linux 6.1) as bytes, read and written.
//!
//! Each type keeps the fields that mean something, and neither reserved fields nor padding. `read`
//! gives the value exactly where the bytes are such a struct, each field being what stands at its
//! offset; `write` makes the bytes the layout of the value, zeros where no field stands; and reading
//! what was written gives the value again. It stands on `vd_num` alone, for the little-endian fields.
#![tactic(auto)]

mod bytes;
mod control;
mod device;
mod iova;
mod message;

pub use control::{ApiVersion, DevConfig, DevName};
pub use device::{ConfigData, VqConfig};
pub use iova::{IotlbEntry, IovaInfo, IovaUmem};
pub use message::{Request, Response};
