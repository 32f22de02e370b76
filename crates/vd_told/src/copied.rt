//! Answers that own no memory, once more.

ghost use Rattle.std.specs.Prelude.{◌≡◌, false};
ghost use Rattle.vd_answers.specs.Short.{is_done};

use vd_model::Answer;

/// The same answer, if it isn't `ok`.
pub fn copied(answer: &Answer) -> Answer
    requires { is_done answer.now ≡ false }
    ensures { result ≡ answer.now }
{
    match answer {
        Answer::Done(_) => unreachable!(),
        Answer::Err(errno) => Answer::Err(*errno),
        Answer::Bus { at } => Answer::Bus { at: *at },
        Answer::Chain(fault) => Answer::Chain(*fault),
        Answer::Shape { readable, writable } => Answer::Shape {
            readable: *readable,
            writable: *writable,
        },
        Answer::Ahead { found, known } => Answer::Ahead {
            found: *found,
            known: *known,
        },
        Answer::UsedAhead { used, published } => Answer::UsedAhead {
            used: *used,
            published: *published,
        },
        Answer::BadId { id } => Answer::BadId { id: *id },
        Answer::Pending => Answer::Pending,
        Answer::FailedReply { result } => Answer::FailedReply { result: *result },
        Answer::FailedTimeout { deadline, now } => Answer::FailedTimeout {
            deadline: *deadline,
            now: *now,
        },
    }
}
