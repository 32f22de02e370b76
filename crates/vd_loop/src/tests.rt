//! A machine that echoes lines, run over texts in memory.

ghost use Rattle.std.specs.Prelude.{◌≡◌, ◌++◌, ◌∷◌, [], ◌==◌, nat_lt, map, length};

use crate::{Answer, Ended, Machine, run_lines};
use std::alloc::{AllocError, Global};
use std::test::Fail;
use vd_io::{MemSink, MemSource};
use vd_num::{Bytes, Lines};

/// Answers a line of fewer than five bytes by itself, and one of four bytes alone.
#[derive(Drop)]
struct Echo {
    reply: Vec<u8>,
}

impl Machine<()> for Echo {
    ghost reads = { λ line. nat_lt (length line) 5 };

    ghost alone = { λ line. length line == 4 };

    ghost fits = { λ _ _ _. Unit {0} };

    ghost answered = { λ _ _ done replies _ _. replies ≡ map (λ l. l ++ 10 ∷ []) done };

    ghost short = { λ _ _ done replies _ _ _. replies ≡ map (λ l. l ++ 10 ∷ []) done };

    ghost told = { λ e. e.reply.items };

    fn answer(
        &mut self,
        _: &mut (),
        line: &[u8],
        _: u64,
        empty: bool,
    ) -> Result<Answer, AllocError> {
        if line.len() > 4 {
            return Ok(Answer::Bad);
        }
        if line.len() == 4 && !empty {
            return Ok(Answer::Later);
        }
        self.reply.clear();
        self.reply.extend_from_slice(line)?;
        self.reply.push(b'\n')?;
        Ok(Answer::Told)
    }

    fn reply(&self) -> &[u8] {
        self.reply.as_slice()
    }
}

/// Runs the text, where these calls of the source and of the sink fail.
fn run_echo(
    alloc: Global,
    text: &[u8],
    fails: &[u64],
    sink_fails: &[u64],
) -> Result<(Ended, MemSink), AllocError> {
    let machine = Echo {
        reply: Vec::new(alloc),
    };
    let mut source = MemSource::new(
        Bytes::from_vec(text.to_vec(alloc)?),
        Lines::from_vec(fails.to_vec(alloc)?),
    );
    let mut sink = MemSink::new(alloc, 64, Lines::from_vec(sink_fails.to_vec(alloc)?))?;
    let (_, ended) = run_lines(alloc, machine, &mut (), &mut source, &mut sink);
    Ok((ended, sink))
}

#[test]
fn lines_are_answered(rt: HostRuntime) -> Result<(), Fail> {
    let (ended, sink) = run_echo(rt.alloc(), b"ab\nc\n\nabcd\ne", &[], &[])?;
    let all = Ended {
        status: 0,
        line: 0,
        lines_done: 5,
    };
    assert_eq!(rt; ended, all);
    assert_eq!(rt; sink.as_slice(), b"ab\nc\n\nabcd\ne\n".as_slice());

    let (ended, sink) = run_echo(rt.alloc(), b"ab\nabcde\nc", &[], &[])?;
    let bad = Ended {
        status: 6,
        line: 2,
        lines_done: 1,
    };
    assert_eq!(rt; ended, bad);
    assert_eq!(rt; sink.as_slice(), b"ab\n".as_slice());
    Ok(())
}

#[test]
fn faults_are_told(rt: HostRuntime) -> Result<(), Fail> {
    let (ended, _) = run_echo(rt.alloc(), b"ab\n", &[1], &[])?;
    assert_eq!(rt; (ended.status, ended.lines_done), (3, 1));

    // What waits before the line of four bytes is written first.
    let (ended, sink) = run_echo(rt.alloc(), b"ab\nc\nabcd\ne", &[], &[1])?;
    assert_eq!(rt; (ended.status, ended.lines_done), (4, 2));
    assert_eq!(rt; sink.as_slice(), b"ab\nc\n".as_slice());
    Ok(())
}
