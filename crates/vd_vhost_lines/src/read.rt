//! Reading a line.

ghost use Rattle.std.specs.Prelude.{◌≡◌};
ghost use Rattle.std.specs.Str.{bytes_eq};
ghost use Rattle.vd_words.specs.Gives.{Gives};
ghost use Rattle.vd_vhost_model.specs.VhostLines.{vhost_word, vhost_word_text, region_field, regions_form, vhost_form, vhost_step_form, vhost_reading};

use std::alloc::Global;
use vd_model::Region;
use vd_num::Range;
use vd_vhost_model::{ALL_VHOST_WORDS, Spans, VhostStep, VhostWord};
use vd_words::{LineError, Words};

/// The step whose fields are read in the order of the row, where no word is left behind them.
macro_rules! read_form {
    ($words:ident => $form:ident { $($field:ident: $read:ident($($with:expr),*)),* }) => {{
        let step = VhostStep::$form { $($field: $words.$read($($with),*)?),* };
        $words.done(step)
    }};
}

/// Whether a first word is written so.
fn is_written_so(word: &[u8], known: VhostWord) -> bool
    ensures { result ≡ bytes_eq word.now (vhost_word_text known) }
{
    word == known.text()
}

/// The first word that is written so.
fn vhost_word_of(word: &[u8]) -> Option<VhostWord>
    ensures { result ≡ vhost_word word.now }
{
    ALL_VHOST_WORDS
        .iter()
        .copied()
        .find(|known| is_written_so(word, *known))
}

/// A region of a table, `START:LAST:OFFSET:PERM`. Every permission above 255 is refused as 255 is.
fn region_of(word: &[u8]) -> Result<Region, LineError>
    ensures { Gives result (region_field word.now) }
{
    let mut fields = Words::new(b':', word);
    let start = fields.u64()?;
    let last = fields.u64()?;
    let offset = fields.u64()?;
    let perm = fields.u64()?.min(255) as u8;
    fields.done(Region {
        start,
        last,
        offset,
        perm,
    })
}

/// The regions of a table, at most 64.
fn regions(alloc: Global, words: &mut Words<'_>) -> Result<Spans, LineError>
    ensures { Gives result (regions_form words.old) }
{
    let mut regions = Spans::new(alloc);
    for _ in 0..64usize {
        if let Some(word) = words.next() {
            regions.push(region_of(word)?)?;
        }
    }
    words.done(regions)
}

/// The range of a lookup.
fn lookup<'a>(words: &mut Words<'_>) -> Result<VhostStep<'a>, LineError>
    ensures { Gives result (vhost_form VhostWord.Lookup words.old) }
{
    let range = Range {
        start: words.u64()?,
        last: words.u64()?,
    };
    words.done(VhostStep::Lookup { range })
}

/// The step that the words behind the first word say.
fn step_of<'a>(
    alloc: Global,
    scratch: &'a mut Vec<u8>,
    word: VhostWord,
    words: &mut Words<'a>,
) -> Result<VhostStep<'a>, LineError>
    ensures { Gives result (vhost_form word words.old) }
{
    match word {
        VhostWord::Poke => read_form!(words => Poke { offset: u64(), bytes: hex(scratch) }),
        VhostWord::Peek => read_form!(words => Peek { offset: u64(), len: length() }),
        VhostWord::SetMap => Ok(VhostStep::SetMap {
            regions: regions(alloc, words)?,
        }),
        VhostWord::Load => read_form!(words => Load { at: u64(), len: length() }),
        VhostWord::Store => read_form!(words => Store { at: u64(), bytes: hex(scratch) }),
        VhostWord::Lookup => lookup(words),
        VhostWord::Recv => words.done(VhostStep::Recv),
        VhostWord::Answer => read_form!(words => Answer { id: u32(), result: u32() }),
        VhostWord::Lost => words.done(VhostStep::Lost),
        VhostWord::Tick => read_form!(words => Tick { seconds: u64() }),
        VhostWord::Take => read_form!(words => Take { id: u32() }),
    }
}

#[tactic(auto, unfolding(vd_vhost_model::specs::VhostLines::vhost_step_form))]
fn step_at<'a>(
    alloc: Global,
    scratch: &'a mut Vec<u8>,
    words: &mut Words<'a>,
) -> Result<VhostStep<'a>, LineError>
    ensures { Gives result (vhost_step_form words.old) }
{
    match vhost_word_of(words.word()?) {
        Some(word) => step_of(alloc, scratch, word, words),
        None => Err(LineError::Bad),
    }
}

/// The step that a line says, None exactly for an empty line and a comment. It borrows the line, and `scratch`,
/// into which the bytes of hexadecimal text are decoded. Any line may find no memory.
pub fn read_vhost_line<'a>(
    alloc: Global,
    scratch: &'a mut Vec<u8>,
    line: &'a [u8],
) -> Result<Option<VhostStep<'a>>, LineError>
    ensures { Gives result (vhost_reading line.now) }
{
    match line {
        [] | [b'#', ..] => Ok(None),
        _ => {
            let mut words = Words::new(b' ', line);
            Ok(Some(step_at(alloc, scratch, &mut words)?))
        }
    }
}
