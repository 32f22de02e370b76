//! The driver's lines on a queue that has a ring.

ghost use Rattle.std.specs.Prelude.{◌≡◌, ◌<◌, ◌≤◌, ◌^◌, ◌+◌, ℕ, List, Some};
ghost use Rattle.vd_model.specs.Setting.{Setting};
ghost use Rattle.vd_model.specs.Creation.{Creation};
ghost use Rattle.vd_model.specs.Acts.{Act};
ghost use Rattle.vd_answers.specs.Tells.{Tells};
ghost use Rattle.vd_memory_lines.specs.Stands.{Stands, IsHeld as IsOut};
ghost use Rattle.vd_request_laws.specs.Owned.{QueueOwned};
ghost use Rattle.vd_driver_port.specs.Rest.{KeepsMemory};
ghost use Rattle.vd_request_lines.specs.Known.{IsKnown};
ghost use Rattle.vd_request_lines.specs.Stands.{RequestsStand};
ghost use Rattle.vd_request_lines.specs.After.{After, IsHeld};

use vd_answers::Hears;
use vd_memory_lines::Memory;
use vd_model::Part;
use vd_pool::Pool;
use vd_request_lines::{HeldDriver, KnownDriver, add, poll, publish, unring};

/// A line of the driver on a queue that has a ring. It takes no memory.
#[derive(Clone, Copy)]
pub(crate) enum RingLine<'a> {
    Unring,
    Add(&'a [Part]),
    Publish,
    Poll,
}

impl RingLine<'_> {
    ghost use Rattle.vd_instance.specs.Lines.{ring_line_turn, HasParts};

    /// Answers the line on what is kept of a queue, in the memory that its ring lies in.
    pub(crate) fn answer<T: Hears>(
        self,
        told: &mut T,
        memory: &mut Memory,
        pool: &mut Pool,
        kept: &mut Option<HeldDriver>,
        queue: &KnownDriver,
    )
        requires ready { T.is_ready told.old }
        requires held { IsHeld memory.old pool.old kept.old }
        requires out { IsOut memory.old pool.old }
        requires room { memory.old.domain.maps < 2 ^ 62 }
        requires some { HasParts self }
        ensures line { (x : Setting) (made : Creation) (acts : List Act) (q : ℕ) →
            Stands x acts memory.old pool.old → RequestsStand acts q kept.old → QueueOwned acts q
            → IsKnown made acts q queue.now
            → Tells (λ said. T.heard told.old said told.new) (ring_line_turn x made acts q self.entry)
            (After x acts q memory.new pool.new kept.new) }
        ensures rest { KeepsMemory memory.old memory.new pool.old pool.new }
        ensures maps { memory.new.domain.maps ≤ memory.old.domain.maps }
    {
        match self {
            RingLine::Unring => unring(told, memory, pool, kept, queue),
            RingLine::Add(parts) => add(told, memory, kept, queue, parts),
            RingLine::Publish => publish(told, memory, kept, queue),
            RingLine::Poll => poll(told, memory, pool, kept, queue),
        }
    }
}
