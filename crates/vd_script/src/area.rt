//! The daemon's lines on regions, on its area and on memory, both ways.

ghost use Rattle.std.specs.Prelude.{◌≡◌, ◌++◌, OnOk};
ghost use Rattle.std.specs.List.{join_with_byte};
ghost use Rattle.vd_words.specs.Gives.{Gives};
ghost use Rattle.vd_model.specs.AreaLines.{area_form, area_text};
ghost use Rattle.vd_model.specs.Spelling.{with_name};

use crate::form::{print_forms, read_form};
use crate::put::{begin, put_hex};
use std::alloc::AllocError;
use vd_model::{AreaStep, AreaWord, Bytes, Text};
use vd_words::{LineError, Words};

/// The step that the words behind the first word and the name say.
pub fn area_step<'a>(
    scratch: &'a mut Vec<u8>,
    word: AreaWord,
    words: &mut Words<'a>,
) -> Result<AreaStep<'a>, LineError>
    ensures { Gives result (area_form word words.old) }
{
    match word {
        AreaWord::Lookup => read_form!(words => AreaStep::Lookup { start: u64(), last: u64() }),
        AreaWord::IovaInfo => read_form!(words => AreaStep::IovaInfo { start: u64(), last: u64() }),
        AreaWord::Area => read_form!(words => AreaStep::Area { bytes: u64() }),
        AreaWord::AreaPut => read_form!(words => AreaStep::AreaPut {
            offset: u64(), bytes: hex(scratch)
        }),
        AreaWord::AreaGet => read_form!(words => AreaStep::AreaGet {
            offset: u64(), len: length()
        }),
        AreaWord::RegUmem => read_form!(words => AreaStep::RegUmem {
            uaddr: u64(), iova: u64(), size: u64()
        }),
        AreaWord::DeregUmem => read_form!(words => AreaStep::DeregUmem {
            iova: u64(), size: u64()
        }),
        AreaWord::Load => read_form!(words => AreaStep::Load { addr: u64(), len: length() }),
        AreaWord::Store => read_form!(words => AreaStep::Store {
            addr: u64(), bytes: hex(scratch)
        }),
    }
}

/// Appends the step's line.
pub fn print_area(name: &Text<'_>, step: &AreaStep<'_>, into: &mut Bytes) -> Result<(), AllocError>
    ensures { OnOk result (into.new
        ≡ into.old ++ join_with_byte 32 (with_name name.now (area_text step.now))) }
{
    print_forms!(step of AreaStep, AreaWord, name, into, {};
        Lookup { start, last } => [*start, *last];
        IovaInfo { start, last } => [*start, *last];
        Area { bytes } => [*bytes];
        AreaPut { offset, bytes } => [*offset] put_hex(bytes.as_slice());
        AreaGet { offset, len } => [*offset, *len];
        RegUmem { uaddr, iova, size } => [*uaddr, *iova, *size];
        DeregUmem { iova, size } => [*iova, *size];
        Load { addr, len } => [*addr, *len];
        Store { addr, bytes } => [*addr] put_hex(bytes.as_slice());
    )
}
