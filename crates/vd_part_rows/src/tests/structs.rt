//! Structs from outside vectors.

use std::test::Fail;
use vd_abi::{ApiVersion, ConfigData, DevConfig, DevName, Request, Response, VqConfig};
use vd_num::{Bytes, Name};

#[test]
fn a_creation_is_written_and_read(rt: HostRuntime) -> Result<(), Fail> {
    let mut name = Name::new(rt.alloc());
    name.push(b'c')?;
    let mut config = Bytes::new(rt.alloc());
    config.push(0x11)?;
    let made = DevConfig {
        name,
        vendor_id: 0,
        device_id: 2,
        features: 0x2_0000_0000,
        vq_num: 1,
        vq_align: 4096,
        config,
    };
    let mut bytes = [0xff; 337];
    made.write(&mut bytes);
    assert_eq!(rt; &bytes[..2], [b'c', 0].as_slice());
    assert_eq!(rt;
        &bytes[260..276],
        [2, 0, 0, 0, 0, 0, 0, 0, 2, 0, 0, 0, 1, 0, 0, 0].as_slice()
    );
    assert_eq!(rt; &bytes[328..], [0, 0, 0, 0, 1, 0, 0, 0, 0x11].as_slice());
    let read = DevConfig::read(rt.alloc(), &bytes)?.ok_or("not read")?;
    assert_eq!(rt; read.config.as_slice(), [0x11].as_slice());
    bytes[280] = 1;
    assert!(rt; DevConfig::read(rt.alloc(), &bytes)?.is_none());
    Ok(())
}

#[test]
fn zeros_are_the_empty_name(rt: HostRuntime) -> Result<(), Fail> {
    let read = DevName::read(rt.alloc(), &[0; 256])?.ok_or("not read")?;
    assert!(rt; read.name.as_slice().is_empty());
    Ok(())
}

#[test]
fn bytes_for_the_config_space_are_read(rt: HostRuntime) -> Result<(), Fail> {
    let read = ConfigData::read(rt.alloc(), &[3, 0, 0, 0, 1, 0, 0, 0, 7])?.ok_or("not read")?;
    assert_eq!(rt; read.offset, 3);
    assert_eq!(rt; read.bytes.as_slice(), [7].as_slice());
    Ok(())
}

#[test]
fn messages_are_those_of_linux(rt: HostRuntime) {
    let status = Request {
        kind: Request::SET_STATUS,
        request_id: 0,
        index: 0,
        status: 1,
        start: 0,
        last: 0,
    };
    let mut bytes = [0xff; 152];
    status.write(&mut bytes);
    assert_eq!(rt; &bytes[..8], [1, 0, 0, 0, 0, 0, 0, 0].as_slice());
    assert_eq!(rt; &bytes[8..24], [0; 16].as_slice());
    assert_eq!(rt; &bytes[24..28], [1, 0, 0, 0].as_slice());
    assert!(rt; Response::read(&[0; 152]).is_some());
    assert!(rt; Response::read(&[0; 151]).is_none());
}

#[test]
fn numbers_are_little_endian(rt: HostRuntime) {
    let mut bytes = [0xff; 8];
    ApiVersion {
        version: 0x3_3000_0200,
    }
    .write(&mut bytes);
    assert_eq!(rt; bytes.as_slice(), [0, 2, 0, 0x30, 3, 0, 0, 0].as_slice());
    let mut queue = [0; 32];
    queue[4] = 8;
    assert_eq!(rt;
        VqConfig::read(&queue),
        Some(VqConfig {
            index: 0,
            max_size: 8
        })
    );
    assert_eq!(rt; VqConfig::read(&queue[..31]), None);
}
