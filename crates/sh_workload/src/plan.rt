//! What a request asks for.
ghost use Rattle.std.specs.Prelude.{◌≡◌, ◌≤◌, ◌*◌, ◌+◌, ◌%◌, ◌==◌};
ghost use Rattle.sh_workload.specs.Requests.{kind_by, plan_from, plan_by, third};

use crate::generator::Generator;

/// The types of requests by number (virtio 1.2, section 5.2.6).
const READ: u32 = 0;

const WRITE: u32 = 1;

const FLUSH: u32 = 4;

/// The sectors of a driver's part of the image.
const PART_SECTORS: u64 = 128;

/// What a request asks for: the number of its type, its first sector, and how many sectors of 512
/// bytes it has. A flush has none.
#[derive(Clone, Copy, Debug, PartialEq, Eq)]
pub struct Plan {
    pub kind: u32,
    pub sector: u64,
    pub sectors: u32,
}

/// The type of a request by its first draw.
fn kind_by(draw: u64) -> u32
    ensures { result ≡ kind_by draw }
{
    match draw % 8 {
        0..=3 => WRITE,
        4..=6 => READ,
        _ => FLUSH,
    }
}

impl Plan {
    /// Draws the next request.
    pub fn draw(generator: &mut Generator) -> Plan
        ensures plan { result ≡ plan_from generator.old.state }
        ensures state { generator.new.state ≡ third generator.old.state }
        ensures few { result.sectors ≤ 4 }
    {
        let kind = kind_by(generator.draw());
        let sectors = 1 + generator.draw() % 4;
        let sector = generator.draw() % (PART_SECTORS + 1 - sectors);
        if kind == FLUSH {
            return Plan {
                kind,
                sector: 0,
                sectors: 0,
            };
        }
        Plan {
            kind,
            sector,
            sectors: sectors as u32,
        }
    }

    /// Whether it is a write.
    pub fn is_write(&self) -> bool
        ensures { result ≡ (self.now.kind == 1) }
    {
        self.kind == WRITE
    }
}
