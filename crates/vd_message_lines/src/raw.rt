//! The raw lines on messages: a read of a request, and a write of a response.

ghost use Rattle.std.specs.Prelude.{◌∷◌, [], List};
ghost use Rattle.vd_model.specs.declared.answer.Answer.TheVariants.{Done};
ghost use Rattle.vd_model.specs.declared.answer.Item.TheVariants.{Number, Text};
ghost use Rattle.vd_model.specs.Acts.{Act};
ghost use Rattle.vd_model.specs.NodeTurns.{answered_with, read_turn, write_turn};
ghost use Rattle.vd_model.specs.Raw.{request_bytes};
ghost use Rattle.vd_answers.specs.Tells.{Tells};
ghost use Rattle.vd_message_lines.specs.After.{MessagesBefore, MessagesAfter};

use vd_abi::{Request, Response};
use vd_answers::Hears;
use vd_model::{Item, Sent};
use vd_msg::{Messages, NotHeld};
use vd_num::Errno;
use vd_raw::{request_of, response_in};

/// Tells a message as the bytes of a request.
fn tell_request<T: Hears>(sent: &Sent, told: &mut T)
    requires { T.is_ready told.old }
    ensures { T.heard told.old (Done (Text (request_bytes sent.now.id sent.now.body) ∷ [])) told.new }
{
    told.short_text(&request_of(sent));
}

/// Receives the first message that isn't held, as the bytes of a request. A read for fewer bytes
/// than a request has receives nothing.
pub fn read<T: Hears>(messages: &mut Messages, len: u32, told: &mut T)
    requires { T.is_ready told.old }
    ensures line { (acts : List Act) → MessagesBefore acts messages.old →
        Tells (λ said. T.heard told.old said told.new) (read_turn acts len)
        (MessagesAfter acts messages.new) }
{
    if len < Request::LEN as u32 {
        told.refused(Errno::Inval);
        return;
    }
    match messages.recv() {
        None => told.refused(Errno::Again),
        Some(sent) => tell_request(&sent, told),
    }
}

/// Answers a message that the session holds, and tells how many bytes a response has.
fn respond<T: Hears>(messages: &mut Messages, response: &Response, told: &mut T)
    requires { T.is_ready told.old }
    ensures line { (acts : List Act) → MessagesBefore acts messages.old →
        Tells (λ said. T.heard told.old said told.new)
        (answered_with (Number 152 ∷ []) acts response.now.request_id response.now.result response.now.avail)
        (MessagesAfter acts messages.new) }
{
    match messages.answer(response.request_id, response.result, response.avail) {
        Ok(()) => told.fields(&[Item::Number(Response::LEN as u64)]),
        Err(NotHeld) => told.refused(Errno::Noent),
    }
}

/// Answers a message that the session holds by the bytes of a response. Bytes behind it are ignored.
pub fn write<T: Hears>(messages: &mut Messages, bytes: &[u8], told: &mut T)
    requires { T.is_ready told.old }
    ensures line { (acts : List Act) → MessagesBefore acts messages.old →
        Tells (λ said. T.heard told.old said told.new) (write_turn acts bytes.now)
        (MessagesAfter acts messages.new) }
{
    if bytes.len() < Response::LEN {
        told.refused(Errno::Inval);
        return;
    }
    respond(messages, &response_in(bytes), told);
}
