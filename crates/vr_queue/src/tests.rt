//! A worked session, answered line by line.
ghost use Rattle.std.specs.Prelude.{◌<◌, ◌≤◌};

use crate::Responder;
use std::test::Fail;
use vr_packed::PackedPair;

/// The lines of a session on a queue of four descriptors, and their replies.
const SESSION: [(&[u8], &[u8]); 14] = [
    (b"add r:0x10:8 w:0x20:4", b"ok 0\n"),
    (b"add w:0x30:1 w:0x40:1", b"ok 1\n"),
    (b"add r:0x50:1", b"err 28\n"),
    (b"next", b"ok 0 r:0x10:8 w:0x20:4\n"),
    (b"next", b"ok 1 w:0x30:1 w:0x40:1\n"),
    (b"next", b"err 11\n"),
    (b"used 1 2", b"ok\n"),
    (b"used 1 2", b"err 2\n"),
    (b"reclaim", b"ok 1 2\n"),
    (b"add r:0x50:1", b"ok 2\n"),
    (b"used 0 4", b"ok\n"),
    (b"reclaim", b"ok 0 4\n"),
    (b"reclaim", b"err 11\n"),
    (b"# rest", b""),
];

#[test]
fn a_session_is_answered(rt: HostRuntime) -> Result<(), Fail> {
    let pair = PackedPair::new(rt.alloc(), 4)?;
    let mut responder = Responder::new(rt.alloc(), pair);
    for (line, reply) in SESSION {
        assert!(rt; responder.answer(rt.alloc(), line).is_ok());
        assert_eq!(rt; responder.reply(), reply);
    }
    assert!(rt; responder.answer(rt.alloc(), b"add").is_err());
    Ok(())
}
