// The structs that set a device up.
use crate::show::{field, filled, size};
use std::io;
use vd_abi::{ConfigData, VqConfig};
use vd_num::Bytes;

fn vq(rt: &impl Print, name: &str, index: u32, max_size: u16) -> io::Result<()> {
    let mut bytes = [0; VqConfig::LEN];
    VqConfig { index, max_size }.write(&mut bytes);
    field(rt, name, &bytes)
}

pub fn print(rt: &(impl AllocGlobal + Print)) -> io::Result<()> {
    size(rt, "vduse_vq_config", VqConfig::LEN)?;
    vq(rt, "vduse_vq_config.index", u32::MAX, 0)?;
    vq(rt, "vduse_vq_config.max_size", 0, u16::MAX)?;
    let mut bytes = [0; VqConfig::LEN];
    VqConfig {
        index: 0x0102_0304,
        max_size: 0x0506,
    }
    .write(&mut bytes);
    filled(rt, "vduse_vq_config", &bytes)?;

    size(rt, "vduse_config_data", ConfigData::LEN)?;
    let mut held = Bytes::new(rt.alloc());
    held.push(0xa5)?;
    let put = ConfigData {
        offset: 0x0102_0304,
        bytes: held,
    };
    let mut bytes = [0; ConfigData::LEN + 1];
    put.write(&mut bytes);
    filled(rt, "vduse_config_data", &bytes)
}
