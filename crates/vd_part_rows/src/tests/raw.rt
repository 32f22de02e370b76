//! Structs of raw lines: the bytes are those of `linux/vduse.h`.

use std::test::Fail;
use vd_model::{Body, NodeStep, Region, Sent};
use vd_raw::{Ioctl, entry_of, ioctl_in, request_of, response_in};

#[test]
fn a_message_is_written(rt: HostRuntime) {
    let sent = Sent {
        id: 7,
        body: Body::Status { value: 15 },
    };
    let bytes = request_of(&sent);
    assert_eq!(rt; &bytes[..8], [1, 0, 0, 0, 7, 0, 0, 0].as_slice());
    assert_eq!(rt; bytes[24], 15);
}

#[test]
fn a_response_is_read(rt: HostRuntime) {
    let mut bytes = [0; 153];
    bytes[0] = 7;
    bytes[4] = 1;
    bytes[29] = 1;
    let response = response_in(&bytes);
    assert_eq!(rt; response.request_id, 7);
    assert_eq!(rt; response.result, 1);
    assert_eq!(rt; response.avail, 256);
}

#[test]
fn a_region_is_written(rt: HostRuntime) {
    let region = Region {
        start: 0x1000,
        last: 0x1fff,
        offset: 0x100,
        perm: 3,
    };
    let bytes = entry_of(&region);
    assert_eq!(rt; &bytes[..2], [0, 1].as_slice());
    assert_eq!(rt; &bytes[16..18], [0xff, 0x1f].as_slice());
    assert_eq!(rt; bytes[24], 3);
}

#[test]
fn bytes_for_the_config_space_are_a_line(rt: HostRuntime) -> Result<(), Fail> {
    let found = ioctl_in(0x12, &[3, 0, 0, 0, 1, 0, 0, 0, 7]);
    let Some(Ioctl::Node(NodeStep::SetConfig { offset, bytes })) = &found else {
        return Err("no line".into());
    };
    assert_eq!(rt; *offset, 3);
    assert_eq!(rt; bytes.as_slice(), [7].as_slice());
    Ok(())
}
