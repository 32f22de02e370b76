//! Headers, numbers and a capacity from outside vectors.

use crate::{BlkStatus, BlkType, Header, capacity_of};

#[test]
fn a_header_is_written_and_read(rt: HostRuntime) {
    let header = Header {
        kind: 1,
        reserved: 0,
        sector: 8,
    };
    let mut bytes = [0xff; 16];
    header.write(&mut bytes);
    assert_eq!(rt;
        bytes.as_slice(),
        [1, 0, 0, 0, 0, 0, 0, 0, 8, 0, 0, 0, 0, 0, 0, 0].as_slice()
    );
    assert_eq!(rt; Header::read(&bytes), Some(header));
    assert_eq!(rt; Header::read(&bytes[..15]), None);
}

#[test]
fn the_capacity_is_told(rt: HostRuntime) {
    assert_eq!(rt; capacity_of(&[0x40, 0, 0, 0, 0, 0, 0, 0, 0]), Some(64));
    assert_eq!(rt; capacity_of(&[0; 7]), None);
}

#[test]
fn numbers_have_names(rt: HostRuntime) {
    assert_eq!(rt; BlkType::from_number(8), Some(BlkType::GetId));
    assert_eq!(rt; BlkType::from_number(2), None);
    assert_eq!(rt; BlkType::Flush.number(), 4);
    assert_eq!(rt; BlkStatus::from_number(2), Some(BlkStatus::Unsupp));
    assert_eq!(rt; BlkStatus::IoErr.number(), 1);
}
