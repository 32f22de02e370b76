//! How the guest's memory is accessed, and what denies an access.

ghost use Rattle.std.specs.Prelude.{◌≡◌};

/// What an access does.
#[derive(Clone, Copy, Debug, PartialEq, Eq)]
pub enum Access {
    Read,
    Write,
}

impl Access {
    ghost use Rattle.vd_vhost_model.specs.GuestTable.{access_bit};

    /// The bit of a region's permission that allows it (`VDUSE_ACCESS_RO` and `_WO` of `linux/vduse.h`).
    pub fn bit(self) -> u8
        ensures { result ≡ access_bit self }
    {
        match self {
            Access::Read => 1,
            Access::Write => 2,
        }
    }
}

/// Why an access is denied: the first address at which it fails, and the rule that it breaks there.
#[derive(Clone, Copy, Debug, PartialEq, Eq)]
pub enum Denied {
    /// No region holds the address.
    Bus { at: u64 },
    /// The region that holds it doesn't permit the access.
    Perm { at: u64 },
}
