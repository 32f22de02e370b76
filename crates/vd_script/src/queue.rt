//! The lines on rings, chains and requests, both ways.

ghost use Rattle.std.specs.Prelude.{◌≡◌, ◌++◌, OnOk};
ghost use Rattle.std.specs.List.{join_with_byte};
ghost use Rattle.vd_words.specs.Gives.{Gives};
ghost use Rattle.vd_model.specs.QueueLines.{queue_form, queue_text};
ghost use Rattle.vd_model.specs.Spelling.{with_name};
ghost use Rattle.vd_model.specs.Forms.{part_field, parts_form, submit_form};
ghost use Rattle.vd_model.specs.declared.step.QueueStep.TheVariants.{Add, Submit};

use crate::form::{print_forms, read_form};
use crate::put::{begin, put_parts, put_submit_form};
use std::alloc::{AllocError, Global};
use vd_model::{Bytes, Part, Parts, QueueStep, QueueWord, SubmitForm, Text};
use vd_words::{LineError, Words};

fn part_of(word: &[u8]) -> Result<Part, LineError>
    ensures { Gives result (part_field word.now) }
{
    let mut fields = Words::new(b':', word);
    let part = Part {
        writable: fields.writable()?,
        at: fields.u64()?,
        len: fields.u32()?,
    };
    fields.done(part)
}

/// The parts of a chain that the words say: 1 to 64, with no word left behind them.
pub fn read_parts(alloc: Global, words: &mut Words<'_>) -> Result<Parts, LineError>
    ensures { Gives result (parts_form words.old) }
{
    let mut parts = Parts::new(alloc);
    for _ in 0..64usize {
        if let Some(word) = words.next() {
            parts.push(part_of(word)?)?;
        }
    }
    if parts.as_slice().is_empty() {
        return Err(LineError::Bad);
    }
    words.done(parts)
}

#[tactic(auto, unfolding(vd_model::specs::Forms::submit_form))]
fn submit_form(words: &mut Words<'_>) -> Result<SubmitForm, LineError>
    ensures { Gives result (submit_form words.old) }
{
    let word = words.word()?;
    if word == b"read".as_slice() {
        read_form!(words => SubmitForm::Read {
            sector: u64(), buffer: u64(), offset: u64(), len: u64()
        })
    } else if word == b"write".as_slice() {
        read_form!(words => SubmitForm::Write {
            sector: u64(), buffer: u64(), offset: u64(), len: u64()
        })
    } else if word == b"flush".as_slice() {
        words.done(SubmitForm::Flush)
    } else if word == b"id".as_slice() {
        read_form!(words => SubmitForm::Id { buffer: u64(), offset: u64() })
    } else {
        Err(LineError::Bad)
    }
}

/// The step that the words behind the first word and the name say.
pub fn queue_step(
    alloc: Global,
    word: QueueWord,
    words: &mut Words<'_>,
) -> Result<QueueStep, LineError>
    ensures { Gives result (queue_form word words.old) }
{
    match word {
        QueueWord::Walk => read_form!(words => QueueStep::Walk { queue: u32(), head: u16() }),
        QueueWord::Fetch => read_form!(words => QueueStep::Fetch { queue: u32() }),
        QueueWord::Execute => read_form!(words => QueueStep::Execute { queue: u32() }),
        QueueWord::Finish => read_form!(words => QueueStep::Finish { queue: u32() }),
        QueueWord::Ring => read_form!(words => QueueStep::Ring { queue: u32(), size: u64() }),
        QueueWord::Unring => read_form!(words => QueueStep::Unring { queue: u32() }),
        QueueWord::Add => Ok(QueueStep::Add {
            queue: words.u32()?,
            parts: read_parts(alloc, words)?,
        }),
        QueueWord::Publish => read_form!(words => QueueStep::Publish { queue: u32() }),
        QueueWord::Submit => Ok(QueueStep::Submit {
            queue: words.u32()?,
            form: submit_form(words)?,
        }),
        QueueWord::Poll => read_form!(words => QueueStep::Poll { queue: u32() }),
    }
}

fn put_add(name: &Text<'_>, queue: u32, parts: &Parts, into: &mut Bytes) -> Result<(), AllocError>
    ensures { OnOk result (into.new
        ≡ into.old ++ join_with_byte 32 (with_name name.now (queue_text (Add queue parts.now)))) }
{
    begin(into, QueueWord::Add.text(), name, &[u64::from(queue)])?;
    put_parts(into, parts)
}

fn put_submit(
    name: &Text<'_>,
    queue: u32,
    form: &SubmitForm,
    into: &mut Bytes,
) -> Result<(), AllocError>
    ensures { OnOk result (into.new
        ≡ into.old ++ join_with_byte 32 (with_name name.now (queue_text (Submit queue form.now)))) }
{
    begin(into, QueueWord::Submit.text(), name, &[u64::from(queue)])?;
    put_submit_form(into, form)
}

/// Appends the step's line.
pub fn print_queue(name: &Text<'_>, step: &QueueStep, into: &mut Bytes) -> Result<(), AllocError>
    ensures { OnOk result (into.new
        ≡ into.old ++ join_with_byte 32 (with_name name.now (queue_text step.now))) }
{
    print_forms!(step of QueueStep, QueueWord, name, into, {
        QueueStep::Add { queue, parts } => put_add(name, *queue, parts, into),
        QueueStep::Submit { queue, form } => put_submit(name, *queue, form, into),
    };
        Walk { queue, head } => [u64::from(*queue), u64::from(*head)];
        Fetch { queue } => [u64::from(*queue)];
        Execute { queue } => [u64::from(*queue)];
        Finish { queue } => [u64::from(*queue)];
        Ring { queue, size } => [u64::from(*queue), *size];
        Unring { queue } => [u64::from(*queue)];
        Publish { queue } => [u64::from(*queue)];
        Poll { queue } => [u64::from(*queue)];
    )
}
