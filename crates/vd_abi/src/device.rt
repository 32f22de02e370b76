// What is passed to a device's node, `/dev/vduse/NAME`, to set the device up.
ghost use Rattle.std.specs.Prelude.{◌≡◌, ◌+◌, false, IfSome, IfOk, is_some, length};
ghost use Rattle.vd_abi.specs.Layout.{ShowsEach, FitsEach, laid_out};
ghost use Rattle.vd_model.specs.Raw.{is_config_data};
ghost use Rattle.vd_abi.specs.Structs.{config_data, vq_config, is_vq_config};
ghost use Rattle.vd_abi.specs.declared.device.ConfigData.{ConfigData};
ghost use Rattle.vd_abi.specs.declared.device.VqConfig.{VqConfig};

use crate::bytes::{are_zero, bytes_from, clear, put};
use std::alloc::{AllocError, Global};
use vd_num::{Bytes, get16, get32, set16, set32};

/// Bytes for a part of the config space (`struct vduse_config_data`).
#[derive(Debug, Drop)]
pub struct ConfigData {
    pub offset: u32,
    pub bytes: Bytes,
}

impl ConfigData {
    /// The bytes that it has before those for the config space.
    pub const LEN: usize = 8;

    /// The struct in these bytes.
    pub fn read(alloc: Global, from: &[u8]) -> Result<Option<ConfigData>, AllocError>
        ensures formed { IfOk result (λ found. is_some found ≡ is_config_data from.now) }
        ensures refused { is_config_data from.now ≡ false → result ≡ Ok None }
        ensures fields { IfOk result (λ found. IfSome found (λ c. ShowsEach from.now (config_data c))) }
        ensures writable { IfOk result (λ found. IfSome found (λ c. FitsEach (config_data c))) }
        ensures again { (c : ConfigData) → FitsEach (config_data c) →
            from.now ≡ laid_out (8 + length c.bytes) (config_data c) →
            IfOk result (λ found. found ≡ Some c) }
    {
        if from.len() < ConfigData::LEN {
            return Ok(None);
        }
        let length = get32(from, 4) as usize;
        if from.len() != ConfigData::LEN + length {
            return Ok(None);
        }
        let bytes = bytes_from(alloc, from, ConfigData::LEN)?;
        Ok(Some(ConfigData {
            offset: get32(from, 0),
            bytes,
        }))
    }

    /// Writes it as bytes.
    #[tactic(auto, unfolding(crate::specs::Layout::laid_out))]
    pub fn write(&self, into: &mut [u8])
        requires len { length into.old ≡ 8 + length self.now.bytes }
        requires fits { FitsEach (config_data self.now) }
        ensures { into.new ≡ laid_out (8 + length self.now.bytes) (config_data self.now) }
    {
        clear(into);
        set32(into, 0, self.offset);
        set32(into, 4, self.bytes.len() as u32);
        put(into, ConfigData::LEN, self.bytes.as_slice());
    }
}

/// How a virtqueue is set up (`struct vduse_vq_config`).
#[derive(Clone, Copy, Debug, PartialEq, Eq)]
pub struct VqConfig {
    pub index: u32,
    pub max_size: u16,
}

impl VqConfig {
    /// The bytes that it has.
    pub const LEN: usize = 32;

    /// The struct in these bytes.
    pub fn read(from: &[u8]) -> Option<VqConfig>
        ensures formed { is_some result ≡ is_vq_config from.now }
        ensures fields { IfSome result (λ c. ShowsEach from.now (vq_config c)) }
        ensures again { (c : VqConfig) → FitsEach (vq_config c) →
            from.now ≡ laid_out 32 (vq_config c) → result ≡ Some c }
    {
        if from.len() != VqConfig::LEN || !are_zero(&from[6..]) {
            return None;
        }
        Some(VqConfig {
            index: get32(from, 0),
            max_size: get16(from, 4),
        })
    }

    /// Writes it as bytes, with zeros in the reserved field.
    #[tactic(auto, unfolding(crate::specs::Layout::laid_out))]
    pub fn write(&self, into: &mut [u8])
        requires { length into.old ≡ 32 }
        ensures { into.new ≡ laid_out 32 (vq_config self.now) }
    {
        clear(into);
        set32(into, 0, self.index);
        set16(into, 4, self.max_size);
    }
}
