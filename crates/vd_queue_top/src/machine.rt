//! A queue as what answers the lines of a text.

ghost use Rattle.std.specs.Prelude.{◌≡◌, ◌*◌, ◌≤◌, false};
ghost use Rattle.vr_pair.specs.QueueLists.{QueueLists};
ghost use Rattle.vd_queue_top.specs.Replies.{AreReplies, HasLed, is_queue_line};

use std::alloc::{AllocError, Global};
use vd_loop::{Answer, Machine};
use vr_pair::Pair;
use vr_queue::{LineError, Responder};

/// A queue that answers lines, and where memory for a line's parts and reply comes from.
#[derive(Drop)]
pub struct QueueMachine<P> {
    alloc: Global,
    responder: Responder<P>,
}

impl<P: Pair> QueueMachine<P> {
    /// A queue that has answered nothing.
    pub fn new(alloc: Global, pair: P) -> Self
        ensures { result.responder.pair ≡ pair }
    {
        QueueMachine {
            alloc,
            responder: Responder::new(alloc, pair),
        }
    }
}

impl<P: Pair> Machine<()> for QueueMachine<P> {
    ghost reads = { λ line. is_queue_line line };

    ghost alone = { λ _. false };

    // A line adds at most 64 parts, so there is room for those of a text's lines.
    ghost fits = { λ lines machine _. (P.placed machine.responder.pair ≤ 64 * lines)
        × ((q : QueueLists) × P.stands machine.responder.pair q) };

    ghost answered = { λ first _ done replies machine _. (q : QueueLists) → P.stands first.responder.pair q →
        HasLed q done replies (P.stands machine.responder.pair) };

    ghost short = { λ first _ done replies _ _ _. (q : QueueLists) → P.stands first.responder.pair q →
        AreReplies q done replies };

    ghost told = { λ machine. machine.responder.reply.items };

    fn answer(&mut self, _: &mut (), line: &[u8], _: u64, _: bool) -> Result<Answer, AllocError> {
        match self.responder.answer(self.alloc, line) {
            Ok(()) => Ok(Answer::Told),
            Err(LineError::Bad) => Ok(Answer::Bad),
            Err(LineError::Memory) => Err(AllocError),
        }
    }

    fn reply(&self) -> &[u8] {
        self.responder.reply()
    }
}
