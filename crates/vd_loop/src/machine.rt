//! What answers lines.

ghost use Rattle.std.specs.Prelude.{◌≡◌, ◌<◌, ◌^◌, ◌+◌, ℕ, List, Bool, Ok, IfOk, OnErr, length};
ghost use Rattle.vd_loop.specs.Runs.{IsOf, AnsweredBy};

use std::alloc::AllocError;

/// What became of a line.
#[derive(Clone, Copy, Debug, PartialEq, Eq)]
pub enum Answer {
    /// It was answered, and its reply can be had.
    Told,
    /// It isn't in the grammar.
    Bad,
    /// It is to be asked again once no reply waits.
    Later,
}

/// What a program gives: it answers lines over something outside, as an image. What is said of it is said from a first
/// state on, which is a machine and what lay outside of it.
pub trait Machine<O> {
    // The line is in the grammar.
    ghost reads: { List ℕ → Bool };

    // The line is answered only where no reply waits.
    ghost alone: { List ℕ → Bool };

    // It can be asked a line after so many others.
    ghost fits: { ℕ → Self → O → Type 0 };

    // Since the first state these lines were answered by these replies.
    ghost answered: { Self → O → List (List ℕ) → List (List ℕ) → Self → O → Type 0 };

    // And at this line memory ran out.
    ghost short: { Self → O → List (List ℕ) → List (List ℕ) → List ℕ → Self → O → Type 0 };

    // The reply to the line that was answered last.
    ghost told: { Self → List ℕ };

    /// Answers a line after so many others. `empty` tells that no reply waits.
    fn answer(
        &mut self,
        outside: &mut O,
        line: &[u8],
        lines: u64,
        empty: bool,
    ) -> Result<Answer, AllocError>
        requires few { lines < 2 ^ 32 }
        requires fits { fits lines self.old outside.old }
        ensures fits { fits (lines + 1) self.new outside.new }
        ensures unasked { result ≡ Ok Answer.Later → fits lines self.new outside.new }
        ensures read { IfOk result (IsOf (reads line.now) (alone line.now) empty) }
        ensures answered { (first : Self) (beside : O) (done replies : List (List ℕ)) → lines ≡ length done →
            answered first beside done replies self.old outside.old →
            IfOk result (AnsweredBy line.now (told self.new) done replies
            (λ d r. answered first beside d r self.new outside.new)) }
        ensures short { (first : Self) (beside : O) (done replies : List (List ℕ)) → lines ≡ length done →
            answered first beside done replies self.old outside.old →
            OnErr result (short first beside done replies line.now self.new outside.new) };

    /// The reply to the line that was answered last.
    fn reply(&self) -> &[u8]
        ensures { result.now ≡ told self.now };
}
