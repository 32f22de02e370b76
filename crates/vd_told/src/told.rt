//! Who hears an answer, keeps it and prints it.

ghost use Rattle.std.specs.Prelude.{◌≡◌, ◌++◌, [], Some, None, IfOk};
ghost use Rattle.vd_model.specs.Replies.{reply_line};

use crate::copied::copied;
use std::alloc::{AllocError, Global};
use vd_answers::{Hears, Kept};
use vd_model::{Answer, Item};
use vd_num::Errno;
use vd_replies::{Printed, ROOM};

/// An answer that is kept, and its reply line.
#[derive(Drop)]
pub struct Told {
    pub kept: Kept,
    pub printed: Printed,
}

impl Told {
    ghost use Rattle.vd_answers.specs.Room.{HasRoom as HasFields};
    ghost use Rattle.vd_replies.specs.Adds.{HasRoom};
    ghost use Rattle.vd_replies.specs.declared.printed.TheConstants.{ROOM};

    /// No answer yet, and room for a short one.
    pub fn new(alloc: Global) -> Result<Told, AllocError>
        ensures ready { IfOk result (λ told. HasFields told.kept × HasRoom ROOM told.printed.bytes) }
        ensures answer { IfOk result (λ told. told.kept.answer ≡ None) }
        ensures reply { IfOk result (λ told. told.printed.bytes.items ≡ []) }
    {
        Ok(Told {
            kept: Kept::new(alloc)?,
            printed: Printed {
                bytes: Vec::with_capacity(alloc, ROOM)?,
            },
        })
    }
}

impl Hears for Told {
    ghost use Rattle.vd_answers.specs.Room.{HasRoom as HasFields};
    ghost use Rattle.vd_replies.specs.Adds.{HasRoom};
    ghost use Rattle.vd_replies.specs.declared.printed.TheConstants.{ROOM};

    ghost heard = { λ old said new. (new.kept.answer ≡ Some said) × (new.printed.bytes.items ≡ old.printed.bytes.items ++ reply_line said) };

    ghost is_ready = { λ told. HasFields told.kept × HasRoom ROOM told.printed.bytes };

    fn done(&mut self) {
        self.kept.done();
        self.printed.done();
    }

    fn fields(&mut self, fields: &[Item]) {
        self.kept.fields(fields);
        self.printed.fields(fields);
    }

    fn short_text(&mut self, bytes: &[u8]) {
        self.kept.short_text(bytes);
        self.printed.short_text(bytes);
    }

    fn text(&mut self, bytes: &[u8]) -> Result<(), AllocError> {
        self.kept.text(bytes)?;
        self.printed.text(bytes)
    }

    fn refused(&mut self, errno: Errno) {
        self.kept.refused(errno);
        self.printed.refused(errno);
    }

    fn bus(&mut self, at: u64) {
        self.kept.bus(at);
        self.printed.bus(at);
    }

    fn answer(&mut self, answer: Answer) {
        self.printed.answer(copied(&answer));
        self.kept.answer(answer);
    }
}
