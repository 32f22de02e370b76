//! An answer that is kept.

ghost use Rattle.std.specs.Prelude.{◌≡◌, ◌≤◌, ◌+◌, ◌++◌, length, true, Some, None, IfOk, vec_len, vec_capacity};
ghost use Rattle.vd_answers.specs.Short.{are_short};

use crate::hears::Hears;
use std::alloc::{AllocError, Global};
use vd_model::{Answer, Bytes, Item, Items};
use vd_num::Errno;

/// How many fields a short answer has at most.
const FIELDS: usize = 12;

/// How many bytes a short text has at most.
const BYTES: usize = 256;

/// The answer is kept. Its room for a short answer is taken when it is made.
#[derive(Drop)]
pub struct Kept {
    alloc: Global,
    fields: Vec<Item>,
    bytes: Vec<u8>,
    pub answer: Option<Answer>,
}

impl Kept {
    ghost use Rattle.vd_answers.specs.Room.{HasRoom};

    /// No answer yet, and room for a short one.
    pub fn new(alloc: Global) -> Result<Kept, AllocError>
        ensures room { IfOk result HasRoom }
        ensures answer { IfOk result (λ kept. kept.answer ≡ None) }
    {
        Ok(Kept {
            alloc,
            fields: Vec::with_capacity(alloc, FIELDS)?,
            bytes: Vec::with_capacity(alloc, BYTES)?,
            answer: None,
        })
    }
}

/// Copies fields that are no texts behind others, where there is room.
fn push_fields(into: &mut Vec<Item>, fields: &[Item])
    requires room { vec_len into.old + length fields.now ≤ vec_capacity into.old }
    requires short { are_short fields.now ≡ true }
    ensures { into.new.items ≡ into.old.items ++ fields.now }
{
    for field in fields {
        let copy = match field {
            Item::Word(tag) => Item::Word(*tag),
            Item::Number(number) => Item::Number(*number),
            Item::Address(at) => Item::Address(*at),
            Item::Text(_) => unreachable!(),
        };
        into.push_reserved(copy);
    }
}

/// Copies bytes behind others, where there is room.
fn push_bytes(into: &mut Vec<u8>, bytes: &[u8])
    requires { vec_len into.old + length bytes.now ≤ vec_capacity into.old }
    ensures { into.new.items ≡ into.old.items ++ bytes.now }
{
    for byte in bytes {
        into.push_reserved(*byte);
    }
}

impl Hears for Kept {
    ghost use Rattle.vd_answers.specs.Room.{HasRoom};

    ghost heard = { λ old said new. new.answer ≡ Some said };

    ghost is_ready = { HasRoom };

    fn done(&mut self) {
        self.answer = Some(Answer::Done(Items::new(self.alloc)));
    }

    fn fields(&mut self, fields: &[Item]) {
        let mut copies = std::mem::replace(&mut self.fields, Vec::new(self.alloc));
        push_fields(&mut copies, fields);
        self.answer = Some(Answer::Done(Items::from_vec(copies)));
    }

    fn short_text(&mut self, bytes: &[u8]) {
        let mut copy = std::mem::replace(&mut self.bytes, Vec::new(self.alloc));
        let mut fields = std::mem::replace(&mut self.fields, Vec::new(self.alloc));
        push_bytes(&mut copy, bytes);
        fields.push_reserved(Item::Text(Bytes::from_vec(copy)));
        self.answer = Some(Answer::Done(Items::from_vec(fields)));
    }

    fn text(&mut self, bytes: &[u8]) -> Result<(), AllocError> {
        let copy = Bytes::from_vec(Vec::from_slice(self.alloc, bytes)?);
        let fields = Vec::from_array(self.alloc, [Item::Text(copy)])?;
        self.answer = Some(Answer::Done(Items::from_vec(fields)));
        Ok(())
    }

    fn refused(&mut self, errno: Errno) {
        self.answer = Some(Answer::Err(errno));
    }

    fn bus(&mut self, at: u64) {
        self.answer = Some(Answer::Bus { at });
    }

    fn answer(&mut self, answer: Answer) {
        self.answer = Some(answer);
    }
}
