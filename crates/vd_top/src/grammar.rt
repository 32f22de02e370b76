//! The grammar of scripts.

ghost use Rattle.std.specs.Prelude.{IfOk};
ghost use Rattle.vd_model.specs.Reading.{reading};
ghost use Rattle.vd_top.specs.Played.{Says};

use std::alloc::{AllocError, Global};
use vd_model::Step;
use vd_script::LineError;

/// What a line of a script asks.
#[derive(Drop)]
pub enum Line<'a> {
    /// It isn't in the grammar.
    Bad,
    /// It is empty or a comment.
    Nothing,
    Asks(Step<'a>),
}

/// Reads a line. What it asks borrows the line, and `scratch`, which holds the bytes that the line
/// spells.
pub fn read_line<'a>(
    alloc: Global,
    scratch: &'a mut Vec<u8>,
    line: &'a [u8],
) -> Result<Line<'a>, AllocError>
    ensures { IfOk result (λ l. Says l (reading line.now)) }
{
    match vd_script::read_line(alloc, scratch, line) {
        Ok(None) => Ok(Line::Nothing),
        Ok(Some(step)) => Ok(Line::Asks(step)),
        Err(LineError::Bad) => Ok(Line::Bad),
        Err(LineError::Memory) => Err(AllocError),
    }
}
