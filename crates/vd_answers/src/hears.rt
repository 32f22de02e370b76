//! Who hears an answer.

ghost use Rattle.std.specs.Prelude.{◌≡◌, ◌≤◌, ◌∷◌, [], length, true, false, OnOk};
ghost use Rattle.vd_model.specs.declared.answer.Answer.{Answer as Said};
ghost use Rattle.vd_answers.specs.Short.{are_short, is_done};
ghost use Rattle.vd_answers.specs.Tells.{answer_of};

use std::alloc::AllocError;
use vd_model::{Answer, Item};
use vd_num::Errno;

/// Who hears the answer to a line: an answer that is kept, or a reply that is printed. Each call
/// tells one answer. Where there is room, only a long text takes memory.
pub trait Hears {
    /// Before, the answer, and after: it heard this answer.
    ghost heard: { Self → Said → Self → Type 0 };

    /// There is room for a short answer.
    ghost is_ready: { Self → Type 0 };

    /// `ok`.
    fn done(&mut self)
        requires { is_ready self.old }
        ensures { heard self.old (Answer.Done []) self.new };

    /// `ok` and at most twelve fields, none of them a text.
    fn fields(&mut self, fields: &[Item])
        requires ready { is_ready self.old }
        requires few { length fields.now ≤ 12 }
        requires short { are_short fields.now ≡ true }
        ensures { heard self.old (Answer.Done fields.now) self.new };

    /// `ok` and at most 256 bytes.
    fn short_text(&mut self, bytes: &[u8])
        requires ready { is_ready self.old }
        requires short { length bytes.now ≤ 256 }
        ensures { heard self.old (Answer.Done (Item.Text bytes.now ∷ [])) self.new };

    /// `ok` and bytes, as many as there are. Without memory for them nothing is said of what was
    /// heard.
    fn text(&mut self, bytes: &[u8]) -> Result<(), AllocError>
        ensures { OnOk result (heard self.old (Answer.Done (Item.Text bytes.now ∷ [])) self.new) };

    /// A refusal.
    fn refused(&mut self, errno: Errno)
        requires { is_ready self.old }
        ensures { heard self.old (Answer.Err errno) self.new };

    /// The first address of an access that cannot be accessed.
    fn bus(&mut self, at: u64)
        requires { is_ready self.old }
        ensures { heard self.old (Answer.Bus at) self.new };

    /// Any answer but `ok`.
    fn answer(&mut self, answer: Answer)
        requires ready { is_ready self.old }
        requires short { is_done answer ≡ false }
        ensures { heard self.old answer self.new };
}

/// Tells `ok`, or the refusal.
pub fn tell<T: Hears>(told: &mut T, ended: Result<(), Errno>)
    requires { T.is_ready told.old }
    ensures { T.heard told.old (answer_of ended) told.new }
{
    match ended {
        Ok(()) => told.done(),
        Err(errno) => told.refused(errno),
    }
}
