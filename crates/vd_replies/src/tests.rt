//! Reply lines of every shape, told through the bound.

ghost use Rattle.std.specs.Prelude.{IfOk};
ghost use Rattle.vd_replies.specs.Adds.{HasRoom};

use crate::{Printed, ROOM};
use std::alloc::AllocError;
use std::test::Fail;
use vd_answers::Hears;
use vd_model::{Answer, ChainFault, ChainKind, Item, Tag};
use vd_num::Errno;

/// Tells an answer other than `ok`, through the bound alone.
fn tell<T: Hears>(told: &mut T, answer: Answer) -> Result<(), Fail>
    requires { T.is_ready told.old }
{
    match answer {
        Answer::Done(_) => return Err("ok has calls of its own".into()),
        other => told.answer(other),
    }
    Ok(())
}

#[test]
fn answers_are_printed(rt: HostRuntime) -> Result<(), Fail> {
    let told = [
        (Answer::Err(Errno::Inval), "err 22\n"),
        (Answer::Bus { at: 0x3ffefff }, "bus 0x3ffefff\n"),
        (Answer::Pending, "pending\n"),
        (
            Answer::Chain(ChainFault {
                kind: ChainKind::Loop,
                table: 1,
                index: 3,
            }),
            "chain loop 1 3\n",
        ),
        (
            Answer::UsedAhead {
                used: 2,
                published: 1,
            },
            "used ahead 2 1\n",
        ),
        (
            Answer::FailedTimeout {
                deadline: 30,
                now: 31,
            },
            "failed timeout 30 31\n",
        ),
    ];
    for (answer, line) in told {
        let mut printed = room(&rt)?;
        tell(&mut printed, answer)?;
        assert_eq!(rt; printed.bytes.as_slice(), line.as_bytes());
    }
    Ok(())
}

/// Room for one short answer.
fn room(rt: &HostRuntime) -> Result<Printed, AllocError>
    ensures { IfOk result (λ printed. HasRoom ROOM printed.bytes) }
{
    Ok(Printed {
        bytes: Vec::with_capacity(rt.alloc(), ROOM)?,
    })
}

#[test]
fn fields_are_printed(rt: HostRuntime) -> Result<(), Fail> {
    let mut printed = room(&rt)?;
    printed.fields(&[
        Item::Number(0),
        Item::Word(Tag::Iova),
        Item::Address(0x3fff000),
    ]);
    assert_eq!(rt;
        printed.bytes.as_slice(),
        b"ok 0 iova 0x3fff000\n".as_slice()
    );
    Ok(())
}

#[test]
fn texts_are_printed(rt: HostRuntime) -> Result<(), Fail> {
    let mut short = room(&rt)?;
    short.short_text(b"hello");
    assert_eq!(rt; short.bytes.as_slice(), b"ok 68656c6c6f\n".as_slice());
    let mut long = room(&rt)?;
    long.text(&[255; 400])?;
    assert_eq!(rt; long.bytes.len(), 804);
    assert_eq!(rt; &long.bytes[..7], b"ok ffff".as_slice());
    Ok(())
}
