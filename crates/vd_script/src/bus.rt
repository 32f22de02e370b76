//! The bus lines, `timeout` and `take`, both ways.

ghost use Rattle.std.specs.Prelude.{◌≡◌, ◌++◌, OnOk};
ghost use Rattle.std.specs.List.{join_with_byte};
ghost use Rattle.vd_words.specs.Gives.{Gives};
ghost use Rattle.vd_model.specs.BusLines.{bus_form, bus_text};
ghost use Rattle.vd_model.specs.Spelling.{with_name};

use crate::form::{print_forms, read_form};
use crate::put::{begin, put_flag, put_on};
use std::alloc::AllocError;
use vd_model::{BusStep, BusWord, Bytes, Text};
use vd_words::{LineError, Words};

/// The step that the words behind the first word and the name say.
pub fn bus_step(word: BusWord, words: &mut Words<'_>) -> Result<BusStep, LineError>
    ensures { Gives result (bus_form word words.old) }
{
    match word {
        BusWord::Attach => words.done(BusStep::Attach),
        BusWord::Detach => words.done(BusStep::Detach),
        BusWord::Offered => words.done(BusStep::Offered),
        BusWord::SetFeatures => read_form!(words => BusStep::SetFeatures { features: u64() }),
        BusWord::GetStatus => words.done(BusStep::GetStatus),
        BusWord::SetStatus => read_form!(words => BusStep::SetStatus { status: status() }),
        BusWord::Reset => words.done(BusStep::Reset),
        BusWord::VqNum => read_form!(words => BusStep::VqNum { queue: u32(), num: u64() }),
        BusWord::VqAddr => read_form!(words => BusStep::VqAddr {
            queue: u32(), desc: u64(), driver: u64(), device: u64()
        }),
        BusWord::VqReady => read_form!(words => BusStep::VqReady { queue: u32(), flag: flag() }),
        BusWord::SetVqState => read_form!(words => BusStep::SetVqState {
            queue: u32(), avail: u16()
        }),
        BusWord::GetVqState => read_form!(words => BusStep::GetVqState { queue: u32() }),
        BusWord::Kick => read_form!(words => BusStep::Kick { queue: u32() }),
        BusWord::Callback => read_form!(words => BusStep::Callback { on: on(), flag: flag() }),
        BusWord::Irqs => read_form!(words => BusStep::Irqs { on: on() }),
        BusWord::GetConfig => read_form!(words => BusStep::GetConfig {
            offset: u64(), len: length()
        }),
        BusWord::Timeout => read_form!(words => BusStep::Timeout { seconds: u32() }),
        BusWord::Take => read_form!(words => BusStep::Take { id: u32() }),
    }
}

/// Appends the step's line.
pub fn print_bus(name: &Text<'_>, step: &BusStep, into: &mut Bytes) -> Result<(), AllocError>
    ensures { OnOk result (into.new
        ≡ into.old ++ join_with_byte 32 (with_name name.now (bus_text step.now))) }
{
    print_forms!(step of BusStep, BusWord, name, into, {};
        Attach {} => [];
        Detach {} => [];
        Offered {} => [];
        SetFeatures { features } => [*features];
        GetStatus {} => [];
        SetStatus { status } => [u64::from(*status)];
        Reset {} => [];
        VqNum { queue, num } => [u64::from(*queue), *num];
        VqAddr { queue, desc, driver, device } => [u64::from(*queue), *desc, *driver, *device];
        VqReady { queue, flag } => [u64::from(*queue)] put_flag(*flag);
        SetVqState { queue, avail } => [u64::from(*queue), u64::from(*avail)];
        GetVqState { queue } => [u64::from(*queue)];
        Kick { queue } => [u64::from(*queue)];
        Callback { on, flag } => [] put_on(*on), put_flag(*flag);
        Irqs { on } => [] put_on(*on);
        GetConfig { offset, len } => [*offset, *len];
        Timeout { seconds } => [u64::from(*seconds)];
        Take { id } => [u64::from(*id)];
    )
}
