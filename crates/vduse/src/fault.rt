//! Why a program ended with another status than 0, as one line for standard error.

ghost use Rattle.std.specs.Prelude.{◌≡◌, ◌⊎◌, MatchOption, true};
ghost use Rattle.vd_loop.specs.Statuses.{is_status};
ghost use Rattle.vduse.specs.Faults.{status_of};

use std::io;
use std::process::ExitCode;
use thiserror::Error;
use vd_loop::Exit;

/// Why a program ended before its lines were answered whole. Lines count from 1, comments and empty lines included.
#[derive(Debug, Drop, Error)]
pub enum Fault {
    #[error("usage: vduse run|cached LINES [--page P] [--bounce-pages N] [--iova-pages N] [--sectors N | --image PATH] < SCRIPT, vduse queue packed|split SIZE, or vduse vhost BYTES; see vduse help")]
    Usage,
    #[error("cannot read the lines after line {0}")]
    Read(u64),
    #[error("cannot write the replies after that of line {0}")]
    Write(u64),
    #[error("no memory after line {0}")]
    Memory(u64),
    #[error("line {0}: not in the grammar{1}")]
    Grammar(u64, String),
    #[error("line {0}: longer than 65536 bytes, or all lines are longer than 67108864")]
    Long(u64),
    #[error("cannot open the image: {0}")]
    Image(io::Error),
    #[error("cannot open the image: its path is not UTF-8")]
    Path,
    #[error("cannot tell the size of the image")]
    Size,
    #[error("all lines were answered, and then the last flush of the cache failed")]
    Unflushed,
}

impl Fault {
    /// Why a program ended so; none where all lines were answered. The quote is what follows the message on a line that isn't in the grammar.
    pub fn of_exit(exit: &Exit, quote: String) -> Option<Fault>
        ensures { (is_status exit.now.status ≡ true) ⊎ (exit.now.status ≡ 2) ⊎ (exit.now.status ≡ 9) →
            MatchOption result (exit.now.status ≡ 0) (λ fault. status_of fault ≡ exit.now.status) }
    {
        match exit.status {
            0 => None,
            3 => Some(Fault::Read(exit.lines_done)),
            4 => Some(Fault::Write(exit.lines_done)),
            5 => Some(Fault::Memory(exit.lines_done)),
            6 => Some(Fault::Grammar(exit.line, quote)),
            7 => Some(Fault::Long(exit.line)),
            9 => Some(Fault::Unflushed),
            _ => Some(Fault::Usage),
        }
    }

    /// The status that a program ends with for it.
    pub fn status(&self) -> u8
        ensures { result ≡ status_of self.now }
    {
        match self {
            Fault::Usage => 2,
            Fault::Read(_) => 3,
            Fault::Write(_) => 4,
            Fault::Memory(_) => 5,
            Fault::Grammar(..) => 6,
            Fault::Long(_) => 7,
            Fault::Image(_) | Fault::Path | Fault::Size => 8,
            Fault::Unflushed => 9,
        }
    }
}

/// Says the fault, if there is one, on standard error, and gives the status to end with.
pub fn told(rt: &HostRuntime, fault: Option<&Fault>) -> ExitCode {
    match fault {
        None => ExitCode::from(0),
        Some(fault) => {
            // Where standard error is closed too, the status alone tells.
            let _said = eprintln!(rt; "vduse: {fault}");
            ExitCode::from(fault.status())
        }
    }
}
