//! Worked examples of messages: a lost session, a timeout, and the end of the ids.

use std::test::Fail;
use vd_msg::{Body, Messages, NotHeld, SendError, Sent, TakeAnswer};

fn status(value: u8) -> Body {
    Body::Status { value }
}

fn received(id: u32, value: u8) -> Option<Sent> {
    Some(Sent {
        id,
        body: status(value),
    })
}

#[test]
fn a_new_session_answers_what_it_received_itself(rt: HostRuntime) -> Result<(), Fail> {
    let mut messages = Messages::new(rt.alloc(), 30, 0);
    assert_eq!(rt; messages.send(status(1), 0)?, 0);
    assert_eq!(rt; messages.recv(), received(0, 1));
    messages.lost();
    assert_eq!(rt; messages.answer(0, 0, 0), Err(NotHeld));
    assert_eq!(rt; messages.recv(), received(0, 1));
    assert_eq!(rt; messages.answer(0, 0, 0), Ok(()));
    let done = TakeAnswer::Done {
        body: status(1),
        avail: 0,
    };
    assert_eq!(rt; messages.take(0), done);
    assert_eq!(rt; messages.take(0), TakeAnswer::Unknown);
    assert_eq!(rt; messages.untaken(), 0);
    Ok(())
}

#[test]
fn a_lost_session_gives_its_messages_back_in_order(rt: HostRuntime) -> Result<(), Fail> {
    let mut messages = Messages::new(rt.alloc(), 30, 0);
    for id in 0..3 {
        assert_eq!(rt; messages.send(status(1), 0)?, id);
    }
    assert_eq!(rt; messages.recv(), received(0, 1));
    assert_eq!(rt; messages.recv(), received(1, 1));
    messages.lost();
    for id in 0..3 {
        assert_eq!(rt; messages.recv(), received(id, 1));
    }
    assert_eq!(rt; messages.recv(), None);
    assert_eq!(rt; messages.answer(0, 1, 0), Ok(()));
    assert_eq!(rt; messages.answer(0, 0, 0), Err(NotHeld));
    let failed = TakeAnswer::FailedByReply {
        body: status(1),
        result: 1,
    };
    assert_eq!(rt; messages.take(0), failed);
    assert_eq!(rt; messages.untaken(), 2);
    Ok(())
}

#[test]
fn a_timeout_fails_all_that_is_outstanding(rt: HostRuntime) -> Result<(), Fail> {
    let mut messages = Messages::new(rt.alloc(), 30, 0);
    messages.send(status(1), 0)?;
    messages.send(status(3), 0)?;
    messages.tick(29);
    assert_eq!(rt; messages.take(0), TakeAnswer::Pending);
    assert!(rt; !messages.broken());
    messages.tick(30);
    for (id, value) in [(0, 1), (1, 3)] {
        let failed = TakeAnswer::FailedByTimeout {
            body: status(value),
            deadline: 30,
            now: 30,
        };
        assert_eq!(rt; messages.take(id), failed);
    }
    assert!(rt; messages.broken());
    assert_eq!(rt; messages.send(status(7), 30), Err(SendError::Broken));
    assert_eq!(rt; messages.recv(), None);
    Ok(())
}

#[test]
fn without_a_timeout_messages_wait(rt: HostRuntime) -> Result<(), Fail> {
    let mut messages = Messages::new(rt.alloc(), 30, 0);
    messages.set_timeout(0);
    messages.send(status(1), 0)?;
    messages.send(status(3), 0)?;
    messages.tick(30);
    for id in 0..2 {
        assert_eq!(rt; messages.take(id), TakeAnswer::Pending);
    }
    Ok(())
}

#[test]
fn the_last_id_is_not_given(rt: HostRuntime) -> Result<(), Fail> {
    let mut messages = Messages::new(rt.alloc(), 30, 4294967294);
    assert_eq!(rt; messages.send(status(1), 0)?, 4294967294);
    assert_eq!(rt; messages.send(status(1), 0), Err(SendError::Ids));
    Ok(())
}
