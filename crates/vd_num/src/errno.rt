//! Linux's error numbers.

ghost use Rattle.std.specs.Prelude.{◌≡◌};

/// An error number of Linux, by its name.
#[derive(Clone, Copy, Debug, PartialEq, Eq)]
pub enum Errno {
    Noent,
    Io,
    Badf,
    Again,
    Nomem,
    Fault,
    Busy,
    Exist,
    Nodev,
    Inval,
    Nospc,
}

impl Errno {
    ghost use Rattle.vd_num.specs.Errno.{errno_number};

    /// The number that `errno.h` gives the name.
    pub fn number(self) -> u8
        ensures { result ≡ errno_number self }
    {
        match self {
            Errno::Noent => 2,
            Errno::Io => 5,
            Errno::Badf => 9,
            Errno::Again => 11,
            Errno::Nomem => 12,
            Errno::Fault => 14,
            Errno::Busy => 16,
            Errno::Exist => 17,
            Errno::Nodev => 19,
            Errno::Inval => 22,
            Errno::Nospc => 28,
        }
    }
}
