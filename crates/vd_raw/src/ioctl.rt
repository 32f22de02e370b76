//! What an ioctl stands for.

ghost use Rattle.std.specs.Prelude.{◌≡◌};
ghost use Rattle.std.specs.Option.{option_map};
ghost use Rattle.vd_model.specs.Raw.{ioctl_of};
ghost use Rattle.vd_raw.specs.Seen.{seen_as};

use vd_abi::{ConfigData, IotlbEntry, IovaInfo, IovaUmem, VqConfig};
use vd_model::{AreaStep, NodeStep, Text};
use vd_num::get32;

/// What an ioctl stands for: a plain line, a look-up whose answer is a struct, or the features as a number.
#[derive(Drop)]
pub enum Ioctl<'a> {
    Node(NodeStep<'a>),
    Area(AreaStep<'a>),
    Entry { start: u64, last: u64 },
    Info { start: u64, last: u64 },
    Features,
}

/// `VDUSE_VQ_SETUP`.
fn vq_setup(bytes: &[u8]) -> Option<Ioctl<'_>>
    ensures { option_map seen_as result ≡ ioctl_of 0x14 bytes.now }
{
    match VqConfig::read(bytes) {
        Some(c) => Some(Ioctl::Node(NodeStep::VqSetup {
            queue: c.index,
            max: c.max_size,
        })),
        None => None,
    }
}

/// `VDUSE_IOTLB_GET_FD`.
fn get_fd(bytes: &[u8]) -> Option<Ioctl<'_>>
    ensures { option_map seen_as result ≡ ioctl_of 0x10 bytes.now }
{
    match IotlbEntry::read(bytes) {
        Some(entry) => Some(Ioctl::Entry {
            start: entry.start,
            last: entry.last,
        }),
        None => None,
    }
}

/// `VDUSE_IOTLB_REG_UMEM`.
fn reg_umem(bytes: &[u8]) -> Option<Ioctl<'_>>
    ensures { option_map seen_as result ≡ ioctl_of 0x18 bytes.now }
{
    match IovaUmem::read(bytes) {
        Some(umem) => Some(Ioctl::Area(AreaStep::RegUmem {
            uaddr: umem.uaddr,
            iova: umem.iova,
            size: umem.size,
        })),
        None => None,
    }
}

/// `VDUSE_IOTLB_DEREG_UMEM`.
fn dereg_umem(bytes: &[u8]) -> Option<Ioctl<'_>>
    ensures { option_map seen_as result ≡ ioctl_of 0x19 bytes.now }
{
    match IovaUmem::read(bytes) {
        Some(umem) => Some(Ioctl::Area(AreaStep::DeregUmem {
            iova: umem.iova,
            size: umem.size,
        })),
        None => None,
    }
}

/// `VDUSE_IOTLB_GET_INFO`.
fn get_info(bytes: &[u8]) -> Option<Ioctl<'_>>
    ensures { option_map seen_as result ≡ ioctl_of 0x1a bytes.now }
{
    match IovaInfo::read(bytes) {
        Some(info) => Some(Ioctl::Info {
            start: info.start,
            last: info.last,
        }),
        None => None,
    }
}

/// `VDUSE_VQ_INJECT_IRQ`.
fn inject_irq(bytes: &[u8]) -> Option<Ioctl<'_>>
    ensures { option_map seen_as result ≡ ioctl_of 0x17 bytes.now }
{
    if bytes.len() != 4 {
        return None;
    }
    Some(Ioctl::Node(NodeStep::Irq {
        queue: get32(bytes, 0),
    }))
}

/// `VDUSE_DEV_SET_CONFIG`; the bytes for the config space stay where they are.
fn set_config(bytes: &[u8]) -> Option<Ioctl<'_>>
    ensures { option_map seen_as result ≡ ioctl_of 0x12 bytes.now }
{
    if bytes.len() < ConfigData::LEN {
        return None;
    }
    let length = get32(bytes, 4) as usize;
    if bytes.len() != ConfigData::LEN + length {
        return None;
    }
    Some(Ioctl::Node(NodeStep::SetConfig {
        offset: u64::from(get32(bytes, 0)),
        bytes: Text::new(&bytes[ConfigData::LEN..]),
    }))
}

/// What an ioctl stands for, if it stands for something. It takes no memory.
pub fn ioctl_in(number: u64, bytes: &[u8]) -> Option<Ioctl<'_>>
    ensures { option_map seen_as result ≡ ioctl_of number bytes.now }
{
    match number {
        0x10 => get_fd(bytes),
        0x11 => bytes.is_empty().then_some(Ioctl::Features),
        0x12 => set_config(bytes),
        0x13 => bytes.is_empty().then_some(Ioctl::Node(NodeStep::ConfigIrq)),
        0x14 => vq_setup(bytes),
        0x17 => inject_irq(bytes),
        0x18 => reg_umem(bytes),
        0x19 => dereg_umem(bytes),
        0x1a => get_info(bytes),
        _ => None,
    }
}
