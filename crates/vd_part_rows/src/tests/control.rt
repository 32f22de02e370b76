//! Configs that are refused, and a config space.

use std::alloc::{AllocError, Global};
use std::test::Fail;
use vd_abi::DevConfig;
use vd_control::{ConfigSpace, check_config, check_version};
use vd_num::{Bytes, Errno, Name};

/// What the check says of a device `c` with these numbers and two bytes of config space.
fn checked(
    alloc: Global,
    device_id: u32,
    features: u64,
    vq_num: u32,
    vq_align: u32,
) -> Result<Result<(), Errno>, AllocError> {
    let mut name = Name::new(alloc);
    name.push(b'c')?;
    let mut config = Bytes::new(alloc);
    config.extend_from_slice(&[0x00, 0x11])?;
    Ok(check_config(&DevConfig {
        name,
        vendor_id: 0,
        device_id,
        features,
        vq_num,
        vq_align,
        config,
    }))
}

#[test]
fn creations_are_checked(rt: HostRuntime) -> Result<(), Fail> {
    let refused = [
        (2, 0x200, 1, 4096),
        (2, 0x2_0000_0800, 1, 4096),
        (1, 0x2_0000_0000, 1, 4096),
        (2, 0x2_0000_0000, 0, 4096),
        (2, 0x2_0000_0000, 65, 4096),
        (2, 0x2_0000_0000, 1, 4097),
    ];
    for (device_id, features, vq_num, vq_align) in refused {
        let answer = checked(rt.alloc(), device_id, features, vq_num, vq_align)?;
        assert_eq!(rt; answer, Err(Errno::Inval));
    }
    assert_eq!(rt; checked(rt.alloc(), 2, 0x2_0000_0000, 1, 4096)?, Ok(()));
    Ok(())
}

#[test]
fn a_config_space_is_read_and_written(rt: HostRuntime) -> Result<(), Fail> {
    let mut bytes = Bytes::new(rt.alloc());
    bytes.extend_from_slice(&[0x00, 0x11])?;
    let mut space = ConfigSpace::new(bytes);
    let mut out = [0];
    assert_eq!(rt; space.read(1, &mut out), Ok(()));
    assert_eq!(rt; out[0], 0x11);
    assert_eq!(rt; space.read(1, &mut [0, 0]), Err(Errno::Inval));
    assert_eq!(rt; space.write(0, &[0x22, 0x33]), Ok(()));
    assert_eq!(rt; space.read(0, &mut out), Ok(()));
    assert_eq!(rt; out[0], 0x22);
    Ok(())
}

#[test]
fn the_version_is_0(rt: HostRuntime) {
    assert_eq!(rt; check_version(0), Ok(()));
    assert_eq!(rt; check_version(1), Err(Errno::Inval));
}
