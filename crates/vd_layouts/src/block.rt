// Block requests, and the bits of descriptors, regions and statuses.
use crate::show::{constant, field, filled, size};
use bitflags::Flags;
use blk_proto::{BlkStatus, BlkType, Header, capacity_of};
use std::io;
use vd_num::{DescFlags, Perm, Status};

fn header(rt: &impl Print, name: &str, kind: u32, reserved: u32, sector: u64) -> io::Result<()> {
    let mut bytes = [0; Header::LEN];
    Header {
        kind,
        reserved,
        sector,
    }
    .write(&mut bytes);
    field(rt, name, &bytes)
}

fn print_header(rt: &impl Print) -> io::Result<()> {
    size(rt, "virtio_blk_outhdr", Header::LEN)?;
    header(rt, "virtio_blk_outhdr.type", u32::MAX, 0, 0)?;
    header(rt, "virtio_blk_outhdr.ioprio", 0, u32::MAX, 0)?;
    header(rt, "virtio_blk_outhdr.sector", 0, 0, u64::MAX)?;
    let mut bytes = [0; Header::LEN];
    Header {
        kind: 0x0102_0304,
        reserved: 0x0506_0708,
        sector: 0x1112_1314_1516_1718,
    }
    .write(&mut bytes);
    filled(rt, "virtio_blk_outhdr", &bytes)?;
    let config = [1, 2, 3, 4, 5, 6, 7, 8, 9, 10, 11, 12];
    constant(
        rt,
        "virtio_blk_config.capacity",
        capacity_of(&config).unwrap_or(0),
    )
}

fn print_numbers(rt: &impl Print) -> io::Result<()> {
    constant(rt, "VIRTIO_BLK_T_IN", u64::from(BlkType::In.number()))?;
    constant(rt, "VIRTIO_BLK_T_OUT", u64::from(BlkType::Out.number()))?;
    constant(rt, "VIRTIO_BLK_T_FLUSH", u64::from(BlkType::Flush.number()))?;
    constant(
        rt,
        "VIRTIO_BLK_T_GET_ID",
        u64::from(BlkType::GetId.number()),
    )?;
    constant(rt, "VIRTIO_BLK_S_OK", u64::from(BlkStatus::Ok.number()))?;
    constant(
        rt,
        "VIRTIO_BLK_S_IOERR",
        u64::from(BlkStatus::IoErr.number()),
    )?;
    constant(
        rt,
        "VIRTIO_BLK_S_UNSUPP",
        u64::from(BlkStatus::Unsupp.number()),
    )
}

fn print_bits(rt: &impl Print) -> io::Result<()> {
    constant(rt, "VRING_DESC_F_NEXT", u64::from(DescFlags::NEXT.bits()))?;
    constant(rt, "VRING_DESC_F_WRITE", u64::from(DescFlags::WRITE.bits()))?;
    constant(
        rt,
        "VRING_DESC_F_INDIRECT",
        u64::from(DescFlags::INDIRECT.bits()),
    )?;
    constant(rt, "VDUSE_ACCESS_RO", u64::from(Perm::READ.bits()))?;
    constant(rt, "VDUSE_ACCESS_WO", u64::from(Perm::WRITE.bits()))?;
    constant(rt, "VDUSE_ACCESS_RW", u64::from(Perm::READ_WRITE.bits()))?;
    constant(
        rt,
        "VIRTIO_CONFIG_S_ACKNOWLEDGE",
        u64::from(Status::ACKNOWLEDGE.bits()),
    )?;
    constant(
        rt,
        "VIRTIO_CONFIG_S_DRIVER",
        u64::from(Status::DRIVER.bits()),
    )?;
    constant(
        rt,
        "VIRTIO_CONFIG_S_DRIVER_OK",
        u64::from(Status::DRIVER_OK.bits()),
    )?;
    constant(
        rt,
        "VIRTIO_CONFIG_S_FEATURES_OK",
        u64::from(Status::FEATURES_OK.bits()),
    )?;
    constant(
        rt,
        "VIRTIO_CONFIG_S_NEEDS_RESET",
        u64::from(Status::NEEDS_RESET.bits()),
    )?;
    constant(
        rt,
        "VIRTIO_CONFIG_S_FAILED",
        u64::from(Status::FAILED.bits()),
    )
}

pub fn print(rt: &impl Print) -> io::Result<()> {
    print_header(rt)?;
    print_numbers(rt)?;
    print_bits(rt)
}
