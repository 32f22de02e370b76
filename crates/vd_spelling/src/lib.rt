//! A line as its step is written.
//!
//! It stands on `vd_script`, whose two sides it joins, and has the tests of lines.
#![tactic(auto)]

ghost use Rattle.vd_spelling.specs.Spelled.{Spells};

use std::alloc::Global;
use vd_model::Bytes;
use vd_script::{LineError, print_step, read_line};

/// The line that is written of the step that a line says; None for an empty line and a comment.
pub fn spelled(
    alloc: Global,
    scratch: &mut Vec<u8>,
    line: &[u8],
) -> Result<Option<Bytes>, LineError>
    ensures { Spells result line.now }
{
    let Some(step) = read_line(alloc, scratch, line)? else {
        return Ok(None);
    };
    let mut text = Bytes::new(alloc);
    print_step(alloc, &step, &mut text)?;
    Ok(Some(text))
}

#[cfg(test)]
mod tests;
