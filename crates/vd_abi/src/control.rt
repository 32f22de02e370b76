// What is passed to the control node, `/dev/vduse/control`.
ghost use Rattle.std.specs.Prelude.{◌≡◌, ◌+◌, false, IfSome, IfOk, is_some, length};
ghost use Rattle.vd_abi.specs.Layout.{ShowsEach, FitsEach, laid_out};
ghost use Rattle.vd_abi.specs.Structs.{api_version, is_api_version, dev_name, is_dev_name, dev_config, is_dev_config};
ghost use Rattle.vd_abi.specs.declared.control.ApiVersion.{ApiVersion};
ghost use Rattle.vd_abi.specs.declared.control.DevName.{DevName};
ghost use Rattle.vd_abi.specs.declared.control.DevConfig.{DevConfig};

use crate::bytes::{are_zero, bytes_from, clear, name_in, put};
use std::alloc::{AllocError, Global};
use vd_num::{Bytes, Name, get32, get64, set32, set64};

/// The version of the interface, the argument of `VDUSE_SET_API_VERSION` and the answer of
/// `VDUSE_GET_API_VERSION`.
#[derive(Clone, Copy, Debug, PartialEq, Eq)]
pub struct ApiVersion {
    pub version: u64,
}

impl ApiVersion {
    /// The bytes that it has.
    pub const LEN: usize = 8;

    /// The version in these bytes.
    pub fn read(from: &[u8]) -> Option<ApiVersion>
        ensures formed { is_some result ≡ is_api_version from.now }
        ensures fields { IfSome result (λ v. ShowsEach from.now (api_version v)) }
        ensures again { (v : ApiVersion) → FitsEach (api_version v) →
            from.now ≡ laid_out 8 (api_version v) → result ≡ Some v }
    {
        if from.len() != ApiVersion::LEN {
            return None;
        }
        Some(ApiVersion {
            version: get64(from, 0),
        })
    }

    /// Writes it as bytes.
    #[tactic(auto, unfolding(crate::specs::Layout::laid_out))]
    pub fn write(&self, into: &mut [u8])
        requires { length into.old ≡ 8 }
        ensures { into.new ≡ laid_out 8 (api_version self.now) }
    {
        clear(into);
        set64(into, 0, self.version);
    }
}

/// The name of a device, the argument of `VDUSE_DESTROY_DEV`.
#[derive(Debug, Drop)]
pub struct DevName {
    pub name: Name,
}

impl DevName {
    /// The bytes that it has, `VDUSE_NAME_MAX`.
    pub const LEN: usize = 256;

    /// The name in these bytes.
    pub fn read(alloc: Global, from: &[u8]) -> Result<Option<DevName>, AllocError>
        ensures formed { IfOk result (λ found. is_some found ≡ is_dev_name from.now) }
        ensures refused { is_dev_name from.now ≡ false → result ≡ Ok None }
        ensures fields { IfOk result (λ found. IfSome found (λ d. ShowsEach from.now (dev_name d))) }
        ensures writable { IfOk result (λ found. IfSome found (λ d. FitsEach (dev_name d))) }
        ensures again { (d : DevName) → FitsEach (dev_name d) →
            from.now ≡ laid_out 256 (dev_name d) → IfOk result (λ found. found ≡ Some d) }
    {
        if from.len() != DevName::LEN {
            return Ok(None);
        }
        let name = name_in(alloc, from)?;
        Ok(Some(DevName { name }))
    }

    /// Writes it as bytes, with zeros behind the name.
    #[tactic(auto, unfolding(crate::specs::Layout::laid_out))]
    pub fn write(&self, into: &mut [u8])
        requires len { length into.old ≡ 256 }
        requires fits { FitsEach (dev_name self.now) }
        ensures { into.new ≡ laid_out 256 (dev_name self.now) }
    {
        clear(into);
        put(into, 0, self.name.as_slice());
    }
}

/// What a device is made of (`struct vduse_dev_config`, the argument of `VDUSE_CREATE_DEV`).
#[derive(Debug, Drop)]
pub struct DevConfig {
    pub name: Name,
    pub vendor_id: u32,
    pub device_id: u32,
    pub features: u64,
    pub vq_num: u32,
    pub vq_align: u32,
    pub config: Bytes,
}

impl DevConfig {
    /// The bytes that it has before those of the config space.
    pub const LEN: usize = 336;

    /// The struct in these bytes.
    pub fn read(alloc: Global, from: &[u8]) -> Result<Option<DevConfig>, AllocError>
        ensures formed { IfOk result (λ found. is_some found ≡ is_dev_config from.now) }
        ensures refused { is_dev_config from.now ≡ false → result ≡ Ok None }
        ensures fields { IfOk result (λ found. IfSome found (λ c. ShowsEach from.now (dev_config c))) }
        ensures writable { IfOk result (λ found. IfSome found (λ c. FitsEach (dev_config c))) }
        ensures again { (c : DevConfig) → FitsEach (dev_config c) →
            from.now ≡ laid_out (336 + length c.config) (dev_config c) →
            IfOk result (λ found. found ≡ Some c) }
    {
        if from.len() < DevConfig::LEN {
            return Ok(None);
        }
        let config_size = get32(from, 332) as usize;
        if from.len() != DevConfig::LEN + config_size || !are_zero(&from[280..332]) {
            return Ok(None);
        }
        let name = name_in(alloc, from)?;
        let config = bytes_from(alloc, from, DevConfig::LEN)?;
        Ok(Some(DevConfig {
            name,
            vendor_id: get32(from, 256),
            device_id: get32(from, 260),
            features: get64(from, 264),
            vq_num: get32(from, 272),
            vq_align: get32(from, 276),
            config,
        }))
    }

    /// Writes it as bytes, with zeros behind the name and in the reserved field.
    #[tactic(auto, unfolding(crate::specs::Layout::laid_out))]
    pub fn write(&self, into: &mut [u8])
        requires len { length into.old ≡ 336 + length self.now.config }
        requires fits { FitsEach (dev_config self.now) }
        ensures { into.new ≡ laid_out (336 + length self.now.config) (dev_config self.now) }
    {
        clear(into);
        put(into, 0, self.name.as_slice());
        set32(into, 256, self.vendor_id);
        set32(into, 260, self.device_id);
        set64(into, 264, self.features);
        set32(into, 272, self.vq_num);
        set32(into, 276, self.vq_align);
        set32(into, 332, self.config.len() as u32);
        put(into, DevConfig::LEN, self.config.as_slice());
    }
}
