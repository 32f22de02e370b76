//! A reply that is printed.

ghost use Rattle.std.specs.Prelude.{◌≡◌, ◌≤◌, ◌+◌, ◌*◌, ◌∷◌, ◌++◌, false, length, map, true, IfSome};
ghost use Rattle.vd_model.specs.Text.{behind};
ghost use Rattle.vd_model.specs.Replies.{item_text, reply_line, words_after};
ghost use Rattle.vd_answers.specs.Short.{are_short, is_done};
ghost use Rattle.vd_digits.specs.Adds.{Adds, HasRoom};

use crate::put::{put, put_address, put_field, put_hex, put_number, put_word};
use crate::words::{first_word_of, kind_text_of};
use std::alloc::AllocError;
use vd_answers::Hears;
use vd_model::{Answer, Item};
use vd_num::Errno;

/// The bytes that a short answer has at most.
pub const ROOM: usize = 768;

/// Replies, one behind the other. Contracts see their bytes.
#[derive(Drop)]
pub struct Printed {
    pub bytes: Vec<u8>,
}

/// The fields of an answer, each behind a space.
fn put_fields(into: &mut Vec<u8>, fields: &[Item])
    requires room { HasRoom (41 * length fields.now) into.old }
    requires short { are_short fields.now ≡ true }
    ensures { Adds into.old into.new (behind 32 (map item_text fields.now)) (41 * length fields.now) }
{
    for field in fields {
        put_field(into, field);
    }
}

/// The words behind the first one of an answer that isn't `ok`, each behind a space.
fn put_words_after(into: &mut Vec<u8>, answer: &Answer)
    requires room { HasRoom 128 into.old }
    requires short { is_done answer.now ≡ false }
    ensures { Adds into.old into.new (behind 32 (words_after answer.now)) 128 }
{
    match answer {
        Answer::Done(_) => unreachable!(),
        Answer::Err(errno) => put_number(into, u64::from(errno.number())),
        Answer::Bus { at } => put_address(into, *at),
        Answer::Chain(fault) => {
            put_word(into, kind_text_of(fault.kind));
            put_number(into, u64::from(fault.table));
            put_number(into, u64::from(fault.index));
        }
        Answer::Shape { readable, writable } => {
            put_number(into, *readable);
            put_number(into, *writable);
        }
        Answer::Ahead { found, known } => {
            put_number(into, u64::from(*found));
            put_number(into, u64::from(*known));
        }
        Answer::UsedAhead { used, published } => {
            put_word(into, b"ahead");
            put_number(into, u64::from(*used));
            put_number(into, u64::from(*published));
        }
        Answer::BadId { id } => {
            put_word(into, b"bad");
            put_number(into, u64::from(*id));
        }
        Answer::Pending => {}
        Answer::FailedReply { result: code } => {
            put_word(into, b"reply");
            put_number(into, u64::from(*code));
        }
        Answer::FailedTimeout { deadline, now } => {
            put_word(into, b"timeout");
            put_number(into, *deadline);
            put_number(into, *now);
        }
    }
}

/// The bytes of a reply of so many bytes, if they can be counted.
fn text_room(len: usize) -> Option<usize>
    ensures { IfSome result (λ room. room ≡ 2 * len + 4) }
{
    len.checked_mul(2)?.checked_add(4)
}

impl Hears for Printed {
    ghost use Rattle.vd_replies.specs.declared.printed.TheConstants.{ROOM};

    ghost heard = { λ old said new. new.bytes.items ≡ old.bytes.items ++ reply_line said };

    ghost is_ready = { λ printed. HasRoom ROOM printed.bytes };

    #[tactic(auto, unfolding(vd_model::specs::Replies::first_word))]
    fn done(&mut self) {
        put(&mut self.bytes, b"ok\n");
    }

    #[tactic(auto, unfolding(vd_model::specs::Replies::first_word))]
    fn fields(&mut self, fields: &[Item]) {
        put(&mut self.bytes, b"ok");
        put_fields(&mut self.bytes, fields);
        self.bytes.push_reserved(b'\n');
    }

    #[tactic(auto, unfolding(vd_model::specs::Replies::first_word))]
    fn short_text(&mut self, bytes: &[u8]) {
        put(&mut self.bytes, b"ok");
        put_hex(&mut self.bytes, bytes);
        self.bytes.push_reserved(b'\n');
    }

    #[tactic(auto, unfolding(vd_model::specs::Replies::first_word))]
    fn text(&mut self, bytes: &[u8]) -> Result<(), AllocError> {
        let Some(room) = text_room(bytes.len()) else {
            return Err(AllocError);
        };
        self.bytes.reserve(room)?;
        put(&mut self.bytes, b"ok");
        put_hex(&mut self.bytes, bytes);
        self.bytes.push_reserved(b'\n');
        Ok(())
    }

    #[tactic(auto, unfolding(vd_model::specs::Replies::first_word))]
    fn refused(&mut self, errno: Errno) {
        put(&mut self.bytes, b"err");
        put_number(&mut self.bytes, u64::from(errno.number()));
        self.bytes.push_reserved(b'\n');
    }

    #[tactic(auto, unfolding(vd_model::specs::Replies::first_word))]
    fn bus(&mut self, at: u64) {
        put(&mut self.bytes, b"bus");
        put_address(&mut self.bytes, at);
        self.bytes.push_reserved(b'\n');
    }

    fn answer(&mut self, answer: Answer) {
        put(&mut self.bytes, first_word_of(&answer));
        put_words_after(&mut self.bytes, &answer);
        self.bytes.push_reserved(b'\n');
    }
}
