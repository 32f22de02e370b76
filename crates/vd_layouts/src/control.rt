// The arguments of the control node.
use crate::show::{filled, size};
use std::io;
use vd_abi::{ApiVersion, DevConfig, DevName};
use vd_num::{Bytes, Name};

fn print_filled(rt: &(impl AllocGlobal + Print)) -> io::Result<()> {
    let mut name = Name::new(rt.alloc());
    name.push(b'v')?;
    let mut config = Bytes::new(rt.alloc());
    config.push(0xa5)?;
    let made = DevConfig {
        name,
        vendor_id: 0x0102_0304,
        device_id: 0x0506_0708,
        features: 0x1112_1314_1516_1718,
        vq_num: 0x2122_2324,
        vq_align: 0x2526_2728,
        config,
    };
    let mut bytes = [0; DevConfig::LEN + 1];
    made.write(&mut bytes);
    filled(rt, "vduse_dev_config", &bytes)?;
    let mut bytes = [0; DevName::LEN];
    DevName { name: made.name }.write(&mut bytes);
    filled(rt, "VDUSE_DESTROY_DEV", &bytes)
}

pub fn print(rt: &(impl AllocGlobal + Print)) -> io::Result<()> {
    size(rt, "VDUSE_NAME_MAX", DevName::LEN)?;
    size(rt, "vduse_dev_config", DevConfig::LEN)?;
    print_filled(rt)?;
    let mut bytes = [0; ApiVersion::LEN];
    ApiVersion {
        version: 0x0102_0304_0506_0708,
    }
    .write(&mut bytes);
    filled(rt, "VDUSE_SET_API_VERSION", &bytes)
}
