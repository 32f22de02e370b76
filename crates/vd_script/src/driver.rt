//! The driver's lines on buffers, mappings and coherent regions, both ways.

ghost use Rattle.std.specs.Prelude.{◌≡◌, ◌++◌, OnOk};
ghost use Rattle.std.specs.List.{join_with_byte};
ghost use Rattle.vd_words.specs.Gives.{Gives};
ghost use Rattle.vd_model.specs.DriverLines.{driver_form, driver_text};
ghost use Rattle.vd_model.specs.Spelling.{with_name};

use crate::form::{print_forms, read_form};
use crate::put::{begin, put_dir, put_hex};
use std::alloc::AllocError;
use vd_model::{Bytes, DriverStep, DriverWord, Text};
use vd_words::{LineError, Words};

/// The step that the words behind the first word and the name say.
pub fn driver_step<'a>(
    scratch: &'a mut Vec<u8>,
    word: DriverWord,
    words: &mut Words<'a>,
) -> Result<DriverStep<'a>, LineError>
    ensures { Gives result (driver_form word words.old) }
{
    match word {
        DriverWord::Buf => read_form!(words => DriverStep::Buf { bytes: hex(scratch) }),
        DriverWord::Zeros => read_form!(words => DriverStep::Zeros { len: number_in(1, u64::MAX) }),
        DriverWord::Free => read_form!(words => DriverStep::Free { buffer: u64() }),
        DriverWord::Poke => read_form!(words => DriverStep::Poke {
            buffer: u64(), offset: u64(), bytes: hex(scratch)
        }),
        DriverWord::Peek => read_form!(words => DriverStep::Peek {
            buffer: u64(), offset: u64(), len: length()
        }),
        DriverWord::Map => read_form!(words => DriverStep::Map {
            buffer: u64(), offset: u64(), len: u64(), dir: dir()
        }),
        DriverWord::Unmap => read_form!(words => DriverStep::Unmap { mapping: u64() }),
        DriverWord::SyncDev => read_form!(words => DriverStep::SyncDev { mapping: u64() }),
        DriverWord::SyncCpu => read_form!(words => DriverStep::SyncCpu { mapping: u64() }),
        DriverWord::Coherent => read_form!(words => DriverStep::Coherent { len: u64() }),
        DriverWord::FreeCoherent => read_form!(words => DriverStep::FreeCoherent { region: u64() }),
        DriverWord::Cput => read_form!(words => DriverStep::Cput {
            region: u64(), offset: u64(), bytes: hex(scratch)
        }),
        DriverWord::Cget => read_form!(words => DriverStep::Cget {
            region: u64(), offset: u64(), len: length()
        }),
    }
}

/// Appends the step's line.
pub fn print_driver(
    name: &Text<'_>,
    step: &DriverStep<'_>,
    into: &mut Bytes,
) -> Result<(), AllocError>
    ensures { OnOk result (into.new
        ≡ into.old ++ join_with_byte 32 (with_name name.now (driver_text step.now))) }
{
    print_forms!(step of DriverStep, DriverWord, name, into, {};
        Buf { bytes } => [] put_hex(bytes.as_slice());
        Zeros { len } => [*len];
        Free { buffer } => [*buffer];
        Poke { buffer, offset, bytes } => [*buffer, *offset] put_hex(bytes.as_slice());
        Peek { buffer, offset, len } => [*buffer, *offset, *len];
        Map { buffer, offset, len, dir } => [*buffer, *offset, *len] put_dir(*dir);
        Unmap { mapping } => [*mapping];
        SyncDev { mapping } => [*mapping];
        SyncCpu { mapping } => [*mapping];
        Coherent { len } => [*len];
        FreeCoherent { region } => [*region];
        Cput { region, offset, bytes } => [*region, *offset] put_hex(bytes.as_slice());
        Cget { region, offset, len } => [*region, *offset, *len];
    )
}
