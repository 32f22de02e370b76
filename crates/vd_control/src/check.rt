//! What a device may be made with.

ghost use Rattle.std.specs.Prelude.{◌≡◌, ◌<◌, ◌↔◌, IsTrue, IsOk, not};
ghost use Rattle.std.specs.List.{list_all};
ghost use Rattle.vd_model.specs.ControlTurns.{is_bad_name, is_bad_config};
ghost use Rattle.vd_model.specs.Fields.{is_name_byte};
ghost use Rattle.vd_model.specs.Creation.{has_feature};
ghost use Rattle.vd_control.specs.Checks.{is_refused};

use vd_abi::DevConfig;
use vd_num::Errno;

/// The id of a block device, the only one that is served (virtio 1.2, section 5).
const BLOCK: u32 = 2;

/// The feature VIRTIO_F_ACCESS_PLATFORM, by its bit.
const ACCESS_PLATFORM: u32 = 33;

/// The feature VIRTIO_BLK_F_CONFIG_WCE, by its bit.
const CONFIG_WCE: u32 = 11;

const MAX_QUEUES: u32 = 64;

const MAX_ALIGN: u32 = 4096;

const MAX_CONFIG: usize = 4096;

fn has_feature(features: u64, bit: u32) -> bool
    requires { bit < 64 }
    ensures { result ≡ has_feature features bit }
{
    (features >> bit) % 2 == 1
}

fn is_name_byte(byte: u8) -> bool
    ensures { result ≡ is_name_byte byte }
{
    byte.is_ascii_lowercase() || byte.is_ascii_digit() || byte == b'_' || byte == b'-'
}

fn has_name_bytes(name: &[u8]) -> bool
    ensures { result ≡ list_all is_name_byte name.now }
{
    name.iter().all(|byte| is_name_byte(*byte))
}

fn is_bad_name(name: &[u8]) -> bool
    ensures { result ≡ is_bad_name name.now }
{
    name.is_empty() || !has_name_bytes(name)
}

fn is_bad_config(config: &DevConfig) -> bool
    ensures { result ≡ is_bad_config config.now.device_id config.now.features config.now.vq_num
        config.now.vq_align config.now.config }
{
    config.device_id != BLOCK
        || !has_feature(config.features, ACCESS_PLATFORM)
        || has_feature(config.features, CONFIG_WCE)
        || config.vq_num == 0
        || config.vq_num > MAX_QUEUES
        || config.vq_align > MAX_ALIGN
        || config.config.len() > MAX_CONFIG
}

/// Whether a device can be made of this.
pub fn check_config(config: &DevConfig) -> Result<(), Errno>
    ensures refused { (result ≡ Err Errno.Inval) ↔ IsTrue (is_refused config.now) }
    ensures taken { IsOk result ↔ IsTrue (not (is_refused config.now)) }
{
    if is_bad_name(config.name.as_slice()) || is_bad_config(config) {
        return Err(Errno::Inval);
    }
    Ok(())
}

/// Whether a daemon can go by this version of the interface; the only one is 0.
pub fn check_version(version: u64) -> Result<(), Errno>
    ensures refused { (result ≡ Err Errno.Inval) ↔ (0 < version) }
    ensures taken { IsOk result ↔ (version ≡ 0) }
{
    if version > 0 {
        return Err(Errno::Inval);
    }
    Ok(())
}
