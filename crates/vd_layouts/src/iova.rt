// The structs about I/O memory.
use crate::show::{constant, field, filled, size};
use std::io;
use vd_abi::{IotlbEntry, IovaInfo, IovaUmem};

fn entry(rt: &impl Print, name: &str, entry: &IotlbEntry) -> io::Result<()> {
    let mut bytes = [0; IotlbEntry::LEN];
    entry.write(&mut bytes);
    field(rt, name, &bytes)
}

fn print_entry(rt: &impl Print) -> io::Result<()> {
    const ZEROS: IotlbEntry = IotlbEntry {
        offset: 0,
        start: 0,
        last: 0,
        perm: 0,
    };
    size(rt, "vduse_iotlb_entry", IotlbEntry::LEN)?;
    let offset = IotlbEntry {
        offset: u64::MAX,
        ..ZEROS
    };
    entry(rt, "vduse_iotlb_entry.offset", &offset)?;
    let start = IotlbEntry {
        start: u64::MAX,
        ..ZEROS
    };
    entry(rt, "vduse_iotlb_entry.start", &start)?;
    let last = IotlbEntry {
        last: u64::MAX,
        ..ZEROS
    };
    entry(rt, "vduse_iotlb_entry.last", &last)?;
    let perm = IotlbEntry {
        perm: u8::MAX,
        ..ZEROS
    };
    entry(rt, "vduse_iotlb_entry.perm", &perm)
}

fn umem(rt: &impl Print, name: &str, uaddr: u64, iova: u64, size: u64) -> io::Result<()> {
    let mut bytes = [0; IovaUmem::LEN];
    IovaUmem { uaddr, iova, size }.write(&mut bytes);
    field(rt, name, &bytes)
}

fn info(rt: &impl Print, name: &str, start: u64, last: u64, capability: u64) -> io::Result<()> {
    let mut bytes = [0; IovaInfo::LEN];
    IovaInfo {
        start,
        last,
        capability,
    }
    .write(&mut bytes);
    field(rt, name, &bytes)
}

fn print_filled(rt: &impl Print) -> io::Result<()> {
    let mut bytes = [0; IotlbEntry::LEN];
    IotlbEntry {
        offset: 0x0102_0304_0506_0708,
        start: 0x1112_1314_1516_1718,
        last: 0x2122_2324_2526_2728,
        perm: 3,
    }
    .write(&mut bytes);
    filled(rt, "vduse_iotlb_entry", &bytes)?;
    let mut bytes = [0; IovaUmem::LEN];
    IovaUmem {
        uaddr: 0x0102_0304_0506_0708,
        iova: 0x1112_1314_1516_1718,
        size: 0x2122_2324_2526_2728,
    }
    .write(&mut bytes);
    filled(rt, "vduse_iova_umem", &bytes)?;
    IovaInfo {
        start: 0x0102_0304_0506_0708,
        last: 0x1112_1314_1516_1718,
        capability: IovaInfo::CAP_UMEM,
    }
    .write(&mut bytes);
    filled(rt, "vduse_iova_info", &bytes)
}

pub fn print(rt: &impl Print) -> io::Result<()> {
    print_entry(rt)?;
    size(rt, "vduse_iova_umem", IovaUmem::LEN)?;
    umem(rt, "vduse_iova_umem.uaddr", u64::MAX, 0, 0)?;
    umem(rt, "vduse_iova_umem.iova", 0, u64::MAX, 0)?;
    umem(rt, "vduse_iova_umem.size", 0, 0, u64::MAX)?;
    size(rt, "vduse_iova_info", IovaInfo::LEN)?;
    info(rt, "vduse_iova_info.start", u64::MAX, 0, 0)?;
    info(rt, "vduse_iova_info.last", 0, u64::MAX, 0)?;
    info(rt, "vduse_iova_info.capability", 0, 0, u64::MAX)?;
    constant(rt, "VDUSE_IOVA_CAP_UMEM", IovaInfo::CAP_UMEM)?;
    print_filled(rt)
}
