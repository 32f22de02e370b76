//! What is kept of one queue.

ghost use Rattle.std.specs.Prelude.{◌≡◌, ◌<◌, ◌≤◌, ◌^◌, Some, IfOk, OnOk, IfErr, OnErr, slice_get, slice_set, unwrap_or, vec_len, map, nat_lt};
ghost use Rattle.std.specs.List.{list_all};
ghost use Rattle.vd_num.specs.declared.errno.Errno.TheVariants.{Inval};
ghost use Rattle.vd_state.specs.Kept.{queue_after_reset, GenerationsCanRise};

use vd_model::QueueInfo;
use vd_num::Errno;

/// A queue: what a question for it tells, and its kicks and interrupts.
#[derive(Clone, Copy, Debug, PartialEq, Eq)]
pub struct Queue {
    /// The largest size that the daemon set up.
    pub max: u16,
    /// The size that the driver chose.
    pub num: u32,
    pub desc: u64,
    pub driver: u64,
    pub device: u64,
    pub avail: u16,
    pub ready: bool,
    /// The count of its kick file, if it has one.
    pub kicks: Option<u64>,
    /// A kick came while the ready queue had no kick file.
    pub remembered: bool,
    pub callback: bool,
    pub interrupts: u64,
    /// How often what the queue describes was set anew or cleared.
    pub generation: u64,
}

impl Queue {
    ghost use Rattle.vd_state.specs.Kept.{new_queue, queue_after_reset, queue_after_kick, with_kick_file, queue_after_interrupt, told_of};

    /// A queue with a largest size, of which nothing else is set.
    pub fn fresh(max: u16) -> Queue
        ensures { result ≡ new_queue max }
    {
        Queue {
            max,
            num: 0,
            desc: 0,
            driver: 0,
            device: 0,
            avail: 0,
            ready: false,
            kicks: None,
            remembered: false,
            callback: false,
            interrupts: 0,
            generation: 0,
        }
    }

    /// The queue after a reset: only its largest size stays, and a generation begins.
    pub fn cleared(self) -> Queue
        requires { self.generation < 2 ^ 62 }
        ensures { result ≡ queue_after_reset self }
    {
        Queue {
            generation: self.generation + 1,
            ..Queue::fresh(self.max)
        }
    }

    /// The queue after a kick: a ready one counts it in its file, or remembers it.
    pub fn kicked(self) -> Queue
        requires { unwrap_or self.kicks 0 < 2 ^ 62 }
        ensures { result ≡ queue_after_kick self }
    {
        if !self.ready {
            return self;
        }
        match self.kicks {
            Some(count) => Queue {
                kicks: Some(count + 1),
                ..self
            },
            None => Queue {
                remembered: true,
                ..self
            },
        }
    }

    /// The queue with a new kick file, which counts a remembered kick of a ready queue, or with none.
    pub fn with_kick_file(self, on: bool) -> Queue
        ensures { result ≡ with_kick_file on self }
    {
        if !on {
            return Queue {
                kicks: None,
                ..self
            };
        }
        if !self.ready {
            return Queue {
                kicks: Some(0),
                ..self
            };
        }
        Queue {
            kicks: Some(u64::from(self.remembered)),
            remembered: false,
            ..self
        }
    }

    /// The queue after an interrupt, which counts where the queue is ready and has a callback.
    pub fn injected(self) -> Queue
        requires { self.interrupts < 2 ^ 62 }
        ensures { result ≡ queue_after_interrupt self }
    {
        if self.ready && self.callback {
            Queue {
                interrupts: self.interrupts + 1,
                ..self
            }
        } else {
            self
        }
    }

    /// What a question for the queue tells.
    pub fn info(&self) -> QueueInfo
        ensures { result ≡ told_of self.now }
    {
        QueueInfo {
            max: self.max,
            num: self.num,
            desc: self.desc,
            driver: self.driver,
            device: self.device,
            avail: self.avail,
            ready: self.ready,
        }
    }
}

/// The queue of this index.
pub fn queue_at(queues: &Vec<Queue>, index: u32) -> Result<Queue, Errno>
    ensures ok { IfOk result (λ q. slice_get queues.now.items index ≡ Some q) }
    ensures inside { OnOk result (index < vec_len queues.now) }
    ensures err { IfErr result (λ e. e ≡ Inval) }
    ensures past { OnErr result (vec_len queues.now ≤ index) }
{
    match queues.get(index as usize) {
        Some(queue) => Ok(*queue),
        None => Err(Errno::Inval),
    }
}

/// Puts a queue in the place of another.
pub fn replace(queues: &mut Vec<Queue>, index: u32, queue: Queue)
    requires { index < vec_len queues.old }
    ensures items { queues.new.items ≡ slice_set queues.old.items index queue }
    ensures len { vec_len queues.new ≡ vec_len queues.old }
{
    queues[index as usize] = queue;
}

/// Resets each queue.
pub fn clear_all(queues: &mut Vec<Queue>)
    requires { GenerationsCanRise queues.old.items }
    ensures { queues.new.items ≡ map queue_after_reset queues.old.items }
{
    for queue in queues.iter_mut() {
        *queue = queue.cleared();
    }
}

/// Whether each queue has a largest size.
pub fn are_set_up(queues: &[Queue]) -> bool
    ensures { result ≡ list_all (λ q. nat_lt 0 q.max) queues.now }
{
    queues.iter().all(|q| q.max > 0)
}
