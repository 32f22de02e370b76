//! Reading a line of the queue program.

ghost use Rattle.std.specs.Prelude.{◌≡◌};
ghost use Rattle.vd_words.specs.Gives.{Gives};
ghost use Rattle.vr_pair.specs.QueueLines.{queue_form, queue_reading};

use std::alloc::Global;
use vd_script::read_parts;
use vd_words::{LineError, Words};
use vr_pair::QueueLine;

#[tactic(auto, unfolding(vr_pair::specs::QueueLines::queue_form))]
fn line_at(alloc: Global, words: &mut Words<'_>) -> Result<QueueLine, LineError>
    ensures { Gives result (queue_form words.old) }
{
    let word = words.word()?;
    if word == b"add".as_slice() {
        Ok(QueueLine::Add {
            parts: read_parts(alloc, words)?,
        })
    } else if word == b"next".as_slice() {
        words.done(QueueLine::Next)
    } else if word == b"used".as_slice() {
        let number = words.u64()?;
        let len = words.u32()?;
        words.done(QueueLine::Used { number, len })
    } else if word == b"reclaim".as_slice() {
        words.done(QueueLine::Reclaim)
    } else {
        Err(LineError::Bad)
    }
}

/// What a line asks of a queue, None exactly for an empty line and a comment: `add` and 1 to 64 parts, `next`, `used`
/// with a chain's number and a length, or `reclaim`. It answers `Bad` exactly for every other line.
pub fn read_queue_line(alloc: Global, line: &[u8]) -> Result<Option<QueueLine>, LineError>
    ensures { Gives result (queue_reading line.now) }
{
    match line {
        [] | [b'#', ..] => Ok(None),
        _ => {
            let mut words = Words::new(b' ', line);
            Ok(Some(line_at(alloc, &mut words)?))
        }
    }
}
