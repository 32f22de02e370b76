//! The daemon's lines on its device node, but for those on memory, both ways.

ghost use Rattle.std.specs.Prelude.{◌≡◌, ◌++◌, OnOk};
ghost use Rattle.std.specs.List.{join_with_byte};
ghost use Rattle.vd_words.specs.Gives.{Gives};
ghost use Rattle.vd_model.specs.NodeLines.{node_form, node_text};
ghost use Rattle.vd_model.specs.Spelling.{with_name};

use crate::form::{print_forms, read_form};
use crate::put::{begin, put_flag, put_hex, put_optional_hex};
use std::alloc::AllocError;
use vd_model::{Bytes, NodeStep, NodeWord, Text};
use vd_words::{LineError, Words};

/// The step that the words behind the first word and the name say.
pub fn node_step<'a>(
    scratch: &'a mut Vec<u8>,
    word: NodeWord,
    words: &mut Words<'a>,
) -> Result<NodeStep<'a>, LineError>
    ensures { Gives result (node_form word words.old) }
{
    match word {
        NodeWord::Open => words.done(NodeStep::Open),
        NodeWord::Close => words.done(NodeStep::Close),
        NodeWord::Features => words.done(NodeStep::Features),
        NodeWord::SetConfig => read_form!(words => NodeStep::SetConfig {
            offset: u64(), bytes: hex(scratch)
        }),
        NodeWord::ConfigIrq => words.done(NodeStep::ConfigIrq),
        NodeWord::VqSetup => read_form!(words => NodeStep::VqSetup { queue: u32(), max: u16() }),
        NodeWord::VqInfo => read_form!(words => NodeStep::VqInfo { queue: u32() }),
        NodeWord::KickFd => read_form!(words => NodeStep::KickFd { queue: u32(), flag: flag() }),
        NodeWord::Kicks => read_form!(words => NodeStep::Kicks { queue: u32() }),
        NodeWord::Irq => read_form!(words => NodeStep::Irq { queue: u32() }),
        NodeWord::Recv => words.done(NodeStep::Recv),
        NodeWord::Answer => read_form!(words => NodeStep::Answer {
            id: u32(), reply: u32(), avail: u16()
        }),
        NodeWord::Read => read_form!(words => NodeStep::Read { len: u32() }),
        NodeWord::Write => read_form!(words => NodeStep::Write { bytes: hex(scratch) }),
        NodeWord::Ioctl => read_form!(words => NodeStep::Ioctl {
            number: u64(), bytes: optional_hex(scratch)
        }),
    }
}

/// Appends the step's line.
pub fn print_node(name: &Text<'_>, step: &NodeStep<'_>, into: &mut Bytes) -> Result<(), AllocError>
    ensures { OnOk result (into.new
        ≡ into.old ++ join_with_byte 32 (with_name name.now (node_text step.now))) }
{
    print_forms!(step of NodeStep, NodeWord, name, into, {};
        Open {} => [];
        Close {} => [];
        Features {} => [];
        SetConfig { offset, bytes } => [*offset] put_hex(bytes.as_slice());
        ConfigIrq {} => [];
        VqSetup { queue, max } => [u64::from(*queue), u64::from(*max)];
        VqInfo { queue } => [u64::from(*queue)];
        KickFd { queue, flag } => [u64::from(*queue)] put_flag(*flag);
        Kicks { queue } => [u64::from(*queue)];
        Irq { queue } => [u64::from(*queue)];
        Recv {} => [];
        Answer { id, reply, avail } => [u64::from(*id), u64::from(*reply), u64::from(*avail)];
        Read { len } => [u64::from(*len)];
        Write { bytes } => [] put_hex(bytes.as_slice());
        Ioctl { number, bytes } => [*number] put_optional_hex(bytes);
    )
}
