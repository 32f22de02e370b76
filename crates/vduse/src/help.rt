//! What `vduse --help`, `vduse help PROGRAM` and `vduse --version` write.

use std::process::ExitCode;

/// What a person asked for who runs nothing.
#[derive(Clone, Copy)]
pub enum Help {
    Programs,
    Run,
    Queue,
    Guest,
    Version,
}

const PROGRAMS: &str = "\
vduse - the kernel side of VDUSE and a block daemon, as a script asks them

usage: vduse run [OPTIONS] < SCRIPT            answers each line of a script by one line
       vduse cached LINES [OPTIONS] < SCRIPT   the same over a write-back cache of LINES dirty sectors
       vduse queue packed|split SIZE < LINES   the same of the two sides of one virtqueue
       vduse vhost BYTES < LINES               the same of a guest's memory behind a table of regions
       vduse help run|queue|vhost              says the words, limits and statuses (run: of cached too)
       vduse --version

Try: vduse run < examples/first.script
The lines of a script: docs/SCRIPT.md, or man 5 vduse-script";

const RUN: &str = "\
usage: vduse run [OPTIONS] < SCRIPT
       vduse cached LINES [OPTIONS] < SCRIPT

A script comes on standard input, and one reply for each line that asks for something goes to standard output.

  --page P           bytes of a page of bounce memory: 4096 (as without it) or 65536
  --bounce-pages N   slots of 4096 bytes of bounce memory, 2 to 16384 (16384)
  --iova-pages N     slots of the I/O address space, above the bounce slots and up to 65536 (32768)
  --sectors N        sectors of 512 bytes of an image in memory, 0 to 131072 (2048)
  --image PATH       a file that is the image, in place of --sectors
  LINES              at most so many sectors stay unwritten in the cache, 1 to 65536; it is flushed at the end

status 0  every line was answered
       2  other words than these; nothing was read
       3  reading failed                  4  writing failed
       5  no memory                       6  a line is not in the grammar
       7  a line has more than 65536 bytes, or the script more than 67108864
       8  the image cannot be opened; nothing was read
       9  every line was answered, and then the last flush of the cache failed
A refused line (err N, bus A) does not end a run. Why a run ended is said on standard error.";

const QUEUE: &str = "\
usage: vduse queue packed|split SIZE < LINES

Both sides of one virtqueue of SIZE descriptors, a power of two from 1 to 32768. A line a call:

  add PART..      the driver makes a chain of 1 to 64 parts available: r:ADDRESS:LENGTH or w:ADDRESS:LENGTH
  next            the device takes the oldest chain that waits
  used NUMBER LEN the device gives a chain back, with so many bytes written
  reclaim         the driver takes back the chain that was used first

Numbers, limits and statuses are those of vduse run: vduse help run.";

const GUEST: &str = "\
usage: vduse vhost BYTES < LINES

A guest's memory of 1 to 67108864 bytes, and a daemon that accesses it by a table of regions with permissions.
The lines: docs/RUNNING.md. Numbers, limits and statuses are those of vduse run: vduse help run.";

const VERSION: &str = "vduse 0.1.0 (VDUSE of Linux 6.1, virtio 1.2)";

/// What these words ask for, if they ask for help and not for a run.
pub fn asked(words: &Vec<String>) -> Option<Help> {
    match words.len() {
        1 => match words[0].as_str() {
            "help" | "--help" | "-h" => Some(Help::Programs),
            "--version" | "-V" => Some(Help::Version),
            _ => None,
        },
        2 => match (words[0].as_str(), words[1].as_str()) {
            ("help", "run") | ("run", "--help") => Some(Help::Run),
            ("help", "queue") | ("queue", "--help") => Some(Help::Queue),
            ("help", "vhost") | ("vhost", "--help") => Some(Help::Guest),
            _ => None,
        },
        _ => None,
    }
}

/// Writes it to standard output. The status is 0, or 4 where that failed.
pub fn print(rt: &HostRuntime, help: Help) -> ExitCode {
    let text = match help {
        Help::Programs => PROGRAMS,
        Help::Run => RUN,
        Help::Queue => QUEUE,
        Help::Guest => GUEST,
        Help::Version => VERSION,
    };
    match println!(rt; "{text}") {
        Ok(()) => ExitCode::from(0),
        Err(_) => ExitCode::from(4),
    }
}
